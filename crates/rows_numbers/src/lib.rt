// The rows of the function table as numbers, seven a row: section, address, offset, name at, name length, code at, code length.
#![tactic(auto)]

ghost use Rattle.std.specs.Prelude.{◌≡◌, ◌+◌, ◌*◌, ◌≤◌, length};
ghost use Rattle.std.proofs.lemmas.List.Edits.{sets};
ghost use Rattle.model.specs.FunctionNumbers.{row_numbers, flat_rows, rows_in};
ghost use Rattle.model.specs.Lent.{filled};
ghost use Rattle.records.specs.Of.{of};
ghost use Rattle.rows_functions.specs.Rows.{rows_made};

use model::Function;
use records::Object;
use rows_functions::{Rows, function_row};
use rows_sections::put_row;

// Row i, in a table of rows.
fn store_row(numbers: &mut [u64], i: usize, f: Function)
    requires { i * 7 + 7 ≤ length numbers.old }
    ensures { numbers.new ≡ sets numbers.old (i * 7) (row_numbers f) }
{
    let row = [
        u64::from(f.section.0),
        f.address,
        f.offset,
        f.name.at,
        f.name.length,
        f.code.at,
        f.code.length,
    ];
    put_row(numbers, i * 7, row);
}

// As many rows as the numbers have room for, and zeros behind.
pub fn fill_numbers(numbers: &mut [u64], object: Object, symbols: &[u32], rows: Rows)
    ensures { numbers.new
        ≡ filled 0 (length numbers.old)
        (flat_rows (of rows_made object.entry.records symbols.now 0 rows (rows_in (length numbers.old)))) }
{
    let n = numbers.len() / 7;
    let mut at = rows;
    for i in 0..n {
        let m = function_row(object, symbols, i, at);
        store_row(numbers, i, m.row);
        at = m.rest;
    }
    numbers[n * 7..].fill(0);
}

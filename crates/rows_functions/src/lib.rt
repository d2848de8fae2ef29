// The function table in a lent slice of structs: its rows stored in the order of a table of record numbers, and the look-up of a row by section and address.
#![tactic(auto)]

ghost use Rattle.std.specs.Prelude.{◌≡◌, [], ◌∷◌, length};
ghost use Rattle.model.specs.Lent.{zero_row};
ghost use Rattle.model.specs.LookUp.{row_key, found_in};
ghost use Rattle.records.specs.Of.{of};
ghost use Rattle.rows_functions.specs.Rows.{row_made, made_of, rows_made};
ghost use Rattle.orders.specs.Compare.{ordering};

use model::{Function, Range, SectionIndex};
use object::code_offset;
use records::Object;
use std::cmp::Ordering;
use symbol_section::member_at;

// Where the name and the code of the next row begin among the bytes.
#[derive(Clone, Copy)]
pub struct Rows {
    pub name: u64,
    pub code: u64,
}

#[derive(Clone, Copy)]
pub struct Made {
    pub row: Function,
    pub rest: Rows,
}

// The row of symbol record j.
#[tactic(auto, unfolding(crate::specs::Rows::row_made))]
fn row(object: Object, j: u32, rows: Rows) -> Made
    ensures { result ≡ of row_made object.entry.records j rows }
{
    let m = member_at(object, j);
    let y = m.symbol;
    let s = m.section;
    let name = u64::from(y.name.length);
    let code = y.size / 8 * 8;
    Made {
        row: Function {
            section: s.index,
            address: y.address,
            offset: code_offset(object.records, s, y),
            name: Range {
                at: rows.name,
                length: name,
            },
            code: Range {
                at: rows.code,
                length: code,
            },
        },
        rest: Rows {
            name: rows.name.saturating_add(name),
            code: rows.code.saturating_add(code),
        },
    }
}

// A row of zeros.
pub fn zero_row() -> Function
    ensures { result ≡ zero_row }
{
    Function {
        section: SectionIndex(0),
        address: 0,
        offset: 0,
        name: Range { at: 0, length: 0 },
        code: Range { at: 0, length: 0 },
    }
}

// Row i, and what is left behind it; past the last symbol a row of zeros.
#[tactic(auto, unfolding(crate::specs::Rows::made_of))]
pub fn function_row(object: Object, symbols: &[u32], i: usize, rows: Rows) -> Made
    ensures { result ≡ of made_of object.entry.records symbols.now i rows }
{
    match symbols.get(i) {
        Some(j) => row(object, *j, rows),
        None => Made {
            row: zero_row(),
            rest: rows,
        },
    }
}

// The rows of the functions of `symbols`, and rows of zeros behind them.
pub fn fill_functions(functions: &mut [Function], object: Object, symbols: &[u32], rows: Rows)
    ensures { functions.new ≡ of rows_made object.entry.records symbols.now 0 rows (length functions.old) }
{
    let mut at = rows;
    for i in 0..functions.len() {
        let m = function_row(object, symbols, i, at);
        functions[i] = m.row;
        at = m.rest;
    }
}

fn compare(f: Function, section: SectionIndex, address: u64) -> Ordering
    ensures { result ≡ ordering (row_key f) (section.0 ∷ address ∷ []) }
{
    f.section.0.cmp(&section.0).then(f.address.cmp(&address))
}

// The place of a function among the first `count` rows, by halves: they are ordered by section and address.
pub fn find(
    functions: &[Function],
    count: usize,
    section: SectionIndex,
    address: u64,
) -> Option<usize>
    ensures { result ≡ found_in functions.now count (section.0 ∷ address ∷ []) }
{
    let mut low = 0;
    let mut high = count.min(functions.len());
    // Each turn halves what is left, so no range counts the turns.
    while low < high {
        let middle = low + (high - low) / 2;
        match compare(functions[middle], section, address) {
            Ordering::Less => low = middle + 1,
            Ordering::Equal => return Some(middle),
            Ordering::Greater => high = middle,
        }
    }
    None
}

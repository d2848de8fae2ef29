// The rows of the program table: where a program's name lies, its length, the variant with its two values, the section's index and the address.
#![tactic(auto)]

ghost use Rattle.std.specs.Prelude.{◌≡◌, ◌++◌, ◌+◌, ◌*◌, ◌^◌, ◌<◌, ◌≤◌, length, drop};
ghost use Rattle.catalogue_numbers.specs.Numbers.{program_by_number};
ghost use Rattle.rows_programs.specs.Rows.{program_row_of, program_rows};
ghost use Rattle.records.specs.Of.{of};

use program_section::variant_numbers;
use records::Object;
use rows_sections::put_row;
use symbol_section::member_at;

// A row without the place of its name.
#[derive(Clone, Copy)]
struct Row {
    length: usize,
    number: u64,
    first: u64,
    second: u64,
    section: u64,
    address: u64,
}

// The row of the program of symbol j.
#[tactic(auto, using(crate::specs::Rows::row_of))]
fn program_row(object: Object, j: u32) -> Row
    ensures { (result ≡ program_row_of (of program_by_number object.entry.records j)) × (result.length < 2 ^ 32) }
{
    let m = member_at(object, j);
    let y = m.symbol;
    let s = m.section;
    let variant = variant_numbers(object.records.name(s.name));
    Row {
        length: y.name.length as usize,
        number: variant.number,
        first: variant.first,
        second: variant.second,
        section: u64::from(s.index.0),
        address: y.address,
    }
}

// The rows of the programs of the symbols of `numbers`, whose names lie one after the other from `at` on.
#[tactic(auto, unfolding(model::specs::Bytes::each, model::specs::Lent::placed))]
pub fn put_program_rows(object: Object, numbers: &[u32], at: usize, out: &mut [u64])
    requires { (length numbers.now < 2 ^ 29) × (at < 2 ^ 62) × (length numbers.now * 7 ≤ length out.old) }
    ensures { out.new ≡ of program_rows object.entry.records at numbers.now ++ drop (length numbers.now * 7) out.old }
{
    let mut place = at;
    for (k, j) in numbers.iter().enumerate() {
        let r = program_row(object, *j);
        let row = [
            place as u64,
            r.length as u64,
            r.number,
            r.first,
            r.second,
            r.section,
            r.address,
        ];
        put_row(out, k * 7, row);
        place += r.length;
    }
}

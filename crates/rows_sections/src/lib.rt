// The rows of the section list: where a section's name lies, its length, the section's index and its size.
#![tactic(auto)]

ghost use Rattle.std.specs.Prelude.{◌≡◌, ◌++◌, ◌+◌, ◌*◌, ◌^◌, ◌<◌, ◌≤◌, length, drop};
ghost use Rattle.std.proofs.lemmas.List.Edits.{sets};
ghost use Rattle.rows_sections.specs.Rows.{section_rows};
ghost use Rattle.records.specs.Of.{of};

use records::Records;

// Puts a row's numbers from i on.
pub fn put_row<const N: usize>(t: &mut [u64], i: usize, row: [u64; N])
    requires { i + N ≤ length t.old }
    ensures { t.new ≡ sets t.old i row.entry }
{
    t[i..i + N].copy_from_slice(&row);
}

// The rows of the sections of `numbers`, whose names lie one after the other from `at` on.
#[tactic(auto, unfolding(model::specs::Bytes::each, model::specs::Lent::placed))]
pub fn put_section_rows(records: Records, numbers: &[u32], at: usize, out: &mut [u64])
    requires { (length numbers.now < 2 ^ 29) × (at < 2 ^ 62) × (length numbers.now * 4 ≤ length out.old) }
    ensures { out.new ≡ of section_rows records.entry at numbers.now ++ drop (length numbers.now * 4) out.old }
{
    let mut place = at as u64;
    for (k, i) in numbers.iter().enumerate() {
        let s = records.section(*i);
        let len = u64::from(s.name.length);
        put_row(out, k * 4, [place, len, u64::from(s.index.0), s.size]);
        place += len;
    }
}

// Text sections: numbers 11 to 15, and the numbers of the symbols that the walk meets.
#![tactic(auto)]

ghost use Rattle.std.specs.Prelude.{◌≡◌, ◌≤◌, length, Err, Some};
ghost use Rattle.catalogue_laws.specs.Shared.{earlier as earlier_of, least_again};
ghost use Rattle.object.specs.View.{section_from};
ghost use Rattle.object.specs.Checked.{checked_of};
ghost use Rattle.parse_text.specs.Group.{address_in, text_group, text_in};
ghost use Rattle.parse_text.specs.Again.{again_next};
ghost use Rattle.parse_text.specs.Parsed.{refusal, unknown_symbol, invalid_symbol, Walked, TextParsed};
ghost use Rattle.records.specs.Of.{of};

use model::{Refusal, SectionIndex, SectionRecord, SymbolIndex, SymbolRecord};
use records::Records;

// The address of the last defined text symbol, and the least number so far to repeat an address.
#[derive(Clone, Copy)]
struct Again {
    address: Option<u64>,
    least: Option<u32>,
}

fn earlier(a: Option<u32>, j: u32) -> Option<u32>
    ensures { result ≡ earlier_of a (Some j) }
{
    match a {
        Some(i) => Some(i.min(j)),
        None => Some(j),
    }
}

impl Again {
    // One symbol more, by its number and record.
    fn next(self, j: u32, y: SymbolRecord) -> Self
        ensures { result ≡ again_next self j y }
    {
        if !object::is_defined_text(y) {
            return self;
        }
        let address = Some(y.address);
        if self.address == address {
            return Again {
                address,
                least: earlier(self.least, j),
            };
        }
        let least = self.least;
        Again { address, least }
    }
}

// The least symbol number of a group's defined text that has the address of the one before it.
fn symbol_table_conflict(records: Records, group: &[u32]) -> Option<u32>
    ensures { result
        ≡ least_again (of address_in records.entry) (of text_group records.entry group.now) }
{
    let mut a = Again {
        address: None,
        least: None,
    };
    for j in group {
        a = a.next(*j, records.symbol(*j));
    }
    a.least
}

fn refused(number: u32, section: SectionIndex, symbol: SymbolIndex) -> Refusal
    ensures { result ≡ refusal number section symbol }
{
    Refusal {
        number,
        section,
        symbol,
        entry: 0,
    }
}

// 12: no symbol is named.
fn unknown_symbol(s: SectionRecord) -> Result<usize, Refusal>
    ensures { result ≡ Err (unknown_symbol s) }
{
    Err(refused(12, s.index, SymbolIndex(0)))
}

// 13 to 15 of the symbol met at an offset of the data.
pub fn invalid_symbol(s: SectionRecord, y: SymbolRecord, offset: u64) -> Result<(), Refusal>
    requires { offset ≤ s.bytes.length }
    ensures { result ≡ checked_of (invalid_symbol s y offset) }
{
    let size = y.size;
    if size == 0 {
        return Err(refused(13, s.index, y.index));
    }
    if size > u64::from(s.bytes.length) - offset {
        return Err(refused(14, s.index, y.index));
    }
    if insn::invalid_program_code(size) {
        return Err(refused(15, s.index, y.index));
    }
    Ok(())
}

// 12 to 15; the search for the next address goes on from where it stands.
fn walk(
    records: Records,
    s: SectionRecord,
    group: &[u32],
    out: &mut [u32],
) -> Result<usize, Refusal>
    requires room { length group.now ≤ length out.old }
    requires text { of text_group records group.now ≡ of text_in records (of section_from records s) }
    ensures { of Walked records.entry s out.old result out.new }
{
    let len = u64::from(s.bytes.length);
    let mut offset: u64 = 0;
    let mut rest = group;
    let mut n = 0;
    // A step is as wide as the symbol that it meets.
    while offset < len {
        let Some(address) = s.address.checked_add(offset) else {
            return unknown_symbol(s);
        };
        // What is passed over is left behind, so the group is walked once.
        let found = loop {
            let Some((j, behind)) = rest.split_first() else {
                return unknown_symbol(s);
            };
            rest = behind;
            let y = records.symbol(*j);
            if object::is_defined_text(y) {
                if y.address == address {
                    break *j;
                }
                if y.address > address {
                    return unknown_symbol(s);
                }
            }
        };
        let y = records.symbol(found);
        invalid_symbol(s, y, offset)?;
        out[n] = found;
        n += 1;
        offset += y.size;
    }
    Ok(n)
}

// Numbers 11 to 15 of a text section, and the numbers of its functions at the front of out; how many there are.
// The group has the section's symbols in order of address.
pub fn parse_text_section(
    records: Records,
    s: SectionRecord,
    group: &[u32],
    out: &mut [u32],
) -> Result<usize, Refusal>
    requires room { length group.now ≤ length out.old }
    requires text { of text_group records group.now ≡ of text_in records (of section_from records s) }
    ensures { of TextParsed records.entry s out.old result out.new }
{
    match symbol_table_conflict(records, group) {
        Some(j) => {
            let y = records.symbol(j);
            Err(refused(11, s.index, y.index))
        }
        None => walk(records, s, group, out),
    }
}

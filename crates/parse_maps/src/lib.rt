// `maps` sections: what refuses one, and the numbers of the maps that it lists.
#![tactic(auto)]

ghost use Rattle.std.specs.Prelude.{◌≡◌, ◌++◌, map, ℕ, ◌+◌, ◌^◌, ◌<◌, ◌≤◌, length, get_or, drop};
ghost use Rattle.model.specs.Bytes.{first_in};
ghost use Rattle.model.specs.Refusals.{map_symbol_refusal, maps_refusal};
ghost use Rattle.records.specs.Of.{of};
ghost use Rattle.object.specs.Checked.{checked_of};
ghost use Rattle.object.specs.Group.{members_in, fault_of};
ghost use Rattle.object.specs.View.{section_from, symbol_in, object_in};
ghost use Rattle.parse_maps.specs.Fault.{map_fault, symbol_map_numbers};

use model::{Refusal, SectionRecord, SymbolRecord};
use records::{MapSource, Records, map_number};

// What refuses a map's symbol: 10 or 16. No sum is made before 10 is ruled out, so none can wrap.
#[tactic(auto, using(std::proofs::lemmas::Bool::Decides::nat_tests, stream::specs::Laws::part_bytes), unfolding(crate::specs::Fault::map_fault))]
fn parse_map(records: Records, s: SectionRecord, y: SymbolRecord) -> Result<(), Refusal>
    ensures { result ≡ checked_of (fault_of (map_fault records.entry.bytes.now records.entry.view s y) s.index y.index) }
{
    let length = u64::from(s.bytes.length);
    if length < y.address || length - y.address < y.size {
        return object::of_symbol(10, s, y);
    }
    let data = records.data(s.bytes);
    let start = data.at + y.address as usize;
    let def = map_def::parse_map_def(data.stream.span(start, y.size as usize));
    if map_def::invalid_map_definition(y.size, def) {
        return object::of_symbol(16, s, y);
    }
    Ok(())
}

// The first refusal of a symbol of a group.
#[tactic(auto, using(crate::proofs::Fault::symbols))]
pub fn map_symbols(records: Records, s: SectionRecord, group: &[u32]) -> Result<(), Refusal>
    ensures { result
        ≡ checked_of
        (first_in (map_symbol_refusal (of section_from records.entry s))
        (map (of symbol_in records.entry) group.now)) }
{
    for j in group {
        parse_map(records, s, records.symbol(*j))?;
    }
    Ok(())
}

// What refuses a `maps` section; the group is that of its symbols.
#[tactic(auto, using(crate::specs::Refused::refused_by_group))]
pub fn parse_maps_section(records: Records, s: SectionRecord, group: &[u32]) -> Result<(), Refusal>
    requires { group.now ≡ of members_in records s }
    ensures { result ≡ checked_of (maps_refusal (of object_in records.entry) (of section_from records.entry s)) }
{
    if group.is_empty() {
        return object::of_section(9, s);
    }
    map_symbols(records, s, group)
}

// The numbers of the maps that a group's symbols are, at the front of out; how many there are.
pub fn map_numbers(sections: u32, group: &[u32], out: &mut [u32]) -> usize
    requires { (length group.now ≤ length out.old)
        × ((k : ℕ) → k < length group.now → sections + get_or group.now k 0 < 2 ^ 32) }
    ensures { (result ≡ length (symbol_map_numbers sections group.now))
        × (out.new ≡ symbol_map_numbers sections group.now ++ drop result out.old) }
{
    for (k, j) in group.iter().enumerate() {
        out[k] = map_number(sections, MapSource::Symbol(*j));
    }
    group.len()
}

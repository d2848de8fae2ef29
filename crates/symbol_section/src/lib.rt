// The section that an index names and the one that a symbol lies in: by a guess,
// since the records' indexes usually follow one another, then a binary search, since they rise.
#![tactic(auto)]

ghost use Rattle.std.specs.Prelude.{◌≡◌, ◌-◌};
ghost use Rattle.records.specs.View.{section_at, symbol_at};
ghost use Rattle.records.specs.Of.{of};
ghost use Rattle.symbol_section.specs.Owner.{FirstNotBelow, has_index, owner_in, home_of, home_in};

use model::{SectionIndex, SectionRecord, SymbolRecord};
use object_view::is_no_section;
use records::{Object, Records};

// A symbol with the section that it lies in.
#[derive(Clone, Copy)]
pub struct Member {
    pub symbol: SymbolRecord,
    pub section: SectionRecord,
}

// The number of the record that has index k, where the indexes follow one another.
fn guess(records: Records, k: SectionIndex) -> u32
    ensures { result ≡ k.0 - (of section_at records.entry 0).index.0 }
{
    k.0.saturating_sub(records.section_index(0).0)
}

// Whether section record i has index k.
fn has_index(records: Records, i: u32, k: SectionIndex) -> bool
    ensures { result ≡ of has_index records.entry k.0 i }
{
    i < records.view.sections && records.section_index(i).0 == k.0
}

// The first section record whose index is not below k, or how many there are.
fn lower_bound(object: Object, k: SectionIndex) -> u32
    ensures { of FirstNotBelow object.entry.records k.0 result }
{
    let mut low: u32 = 0;
    let mut high: u32 = object.records.view.sections;
    // Records are read by number and lie in no slice, so std's `partition_point` can't search them.
    while low < high {
        let middle = low + (high - low) / 2;
        if object.records.section_index(middle).0 < k.0 {
            low = middle + 1;
        } else {
            high = middle;
        }
    }
    low
}

#[tactic(auto, using(crate::specs::Owner::found, crate::specs::Owner::found_first))]
pub fn section_of(object: Object, index: SectionIndex) -> Option<u32>
    ensures { result ≡ of owner_in object.entry.records index.0 }
{
    let near = guess(object.records, index);
    if has_index(object.records, near, index) {
        return Some(near);
    }
    let i = lower_bound(object, index);
    has_index(object.records, i, index).then_some(i)
}

// The section that a symbol lies in, 0 where there is none.
pub fn section_of_symbol(object: Object, y: SymbolRecord) -> u32
    ensures { result ≡ of home_of object.entry.records y }
{
    if is_no_section(y.section) {
        return 0;
    }
    section_of(object, y.section).unwrap_or(0)
}

// Symbol j with its section.
#[tactic(auto, unfolding(object::specs::View::symbol_from))]
pub fn member_at(object: Object, j: u32) -> Member
    ensures { (result.symbol ≡ of symbol_at object.entry.records j)
        × (result.section ≡ of section_at object.entry.records (of home_in object.entry.records j)) }
{
    let symbol = object.records.symbol(j);
    let section = object.records.section(section_of_symbol(object, symbol));
    Member { symbol, section }
}

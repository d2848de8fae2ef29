// Where the first map of each section stands in the map table.
#![tactic(auto)]

ghost use Rattle.std.specs.Prelude.{◌≡◌, ◌++◌, ℕ, ◌^◌, ◌<◌, ◌≤◌, length, get_or, drop};
ghost use Rattle.catalogue_numbers.specs.Fits.{MapFits};
ghost use Rattle.patch_maps.specs.Places.{map_home, map_places};
ghost use Rattle.patch_maps.specs.Found.{place_kept, map_place_of};
ghost use Rattle.records.specs.Of.{of};

use model::SymbolRecord;
use object_view::is_no_section;
use records::{MapSource, Object};
use symbol_section::{section_of, section_of_symbol};

// The section that a map is made from.
fn map_home(object: Object, n: u32) -> u32
    ensures { result ≡ of map_home object.entry.records n }
{
    match object.records.map_source(n) {
        MapSource::Section(i) => i,
        MapSource::Symbol(j) => section_of_symbol(object, object.records.symbol(j)),
    }
}

// From the last map to the first, so that a section keeps its first.
pub fn maps_by_section(object: Object, maps: &[u32], by: &mut [u32])
    requires { (length maps.now < 2 ^ 32)
        × (object.records.view.sections ≤ length by.old)
        × ((k : ℕ) → k < length maps.now → of MapFits object.records (get_or maps.now k 0)) }
    ensures { by.new ≡ of map_places object.entry.records maps.now ++ drop object.entry.records.view.sections by.old }
{
    by[..object.records.view.sections as usize].fill(0);
    for k in (0..maps.len()).rev() {
        let i = map_home(object, maps[k]) as usize;
        by[i] = (k + 1) as u32;
    }
}

// The place of the first map that has a symbol's section. A list of places keeps one more than it, and 0 for none.
pub fn place_of(object: Object, by: &[u32], y: SymbolRecord) -> Option<usize>
    ensures { result ≡ place_kept (of map_place_of object.entry.records by.now y) }
{
    if is_no_section(y.section) {
        return None;
    }
    let i = section_of(object, y.section)?;
    let kept = *by.get(i as usize)?;
    (kept as usize).checked_sub(1)
}

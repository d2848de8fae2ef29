// What a load decides of an object that is not refused, before it fills the lent tables: whether its catalogue fits, and what refuses a patch list.
#![tactic(auto)]

ghost use Rattle.std.specs.Prelude.{◌≡◌, ◌≤◌, length, None};
ghost use Rattle.model.specs.Refusals.{object_refusal, patch_refusal};
ghost use Rattle.records.specs.Of.{of};
ghost use Rattle.object.specs.Checked.{checked_of};
ghost use Rattle.object.specs.View.{object_in};
ghost use Rattle.catalogue_numbers.specs.Numbers.{map_numbers};
ghost use Rattle.bytes_layout.specs.Parts.{catalogue};
ghost use Rattle.patch_checks.specs.Lists.{patches_in};
ghost use Rattle.load_decision.specs.Decided.{Fitted, Relocated};
ghost use Rattle.load_decision.specs.Patches.{ReadyToPatch};
ghost use Rattle.load_decision.specs.Room.{fits_by};

use bytes_layout::{Accepted, Places};
use model::{Refusal, Room};
use object_view::without_place;
use patch_checks::{PatchList, longest_name, patch_refusal};
use patch_maps::maps_by_section;
use patch_symbols::by_name;
use records::Object;
use rows_relocations::put_relocation_rows;

// How many relocations there are, and where the parts of the bytes begin.
#[derive(Clone, Copy)]
pub struct Plan {
    pub relocations: usize,
    pub places: Places,
}

// Whether there is room for the catalogue, with so many relocations and bytes.
fn fits(room: Room, accepted: Accepted, relocations: usize, bytes: usize) -> bool
    ensures { result
        ≡ fits_by room (length accepted.entry.sections.now) (length accepted.entry.programs.now)
        (length accepted.entry.functions.now) (length accepted.entry.maps.now) relocations bytes }
{
    accepted.sections.len() <= room.sections / 4
        && accepted.programs.len() <= room.programs / 7
        && accepted.functions.len() <= room.functions
        && accepted.maps.len() <= room.maps / 27
        && relocations <= room.relocations / 4
        && bytes <= room.bytes
}

// Number 24. The rows of the relocations are stored while they are counted; numbers and tmp are worked in.
pub fn decide_room(
    accepted: Accepted,
    room: Room,
    numbers: &mut [u32],
    tmp: &mut [u32],
    relocations: &mut [u64],
) -> Result<Plan, Refusal>
    requires { (accepted.object.records.view.relocations ≤ length numbers.old)
        × (accepted.object.records.view.relocations ≤ length tmp.old)
        × (room.relocations ≡ length relocations.old) }
    ensures { of Fitted accepted.entry.object.records room result
        × of Relocated accepted.entry.object.records result relocations.old relocations.new }
{
    let count = put_relocation_rows(accepted.object, numbers, tmp, relocations);
    let places = bytes_layout::layout(accepted);
    if !fits(room, accepted, count, places.end) {
        return Err(without_place(24));
    }
    Ok(Plan {
        relocations: count,
        places,
    })
}

// Numbers 18 to 23. Only where there are entries are the symbols ordered by name, and the maps placed by section, in `by`.
pub fn decide_patches(
    object: Object,
    maps: &[u32],
    list: PatchList,
    symbols: &mut [u32],
    by: &mut [u32],
) -> Result<(), Refusal>
    requires { (object_refusal (of object_in object.records) ≡ None)
        × (maps.now ≡ of map_numbers object.records)
        × (length maps.now ≤ 69632)
        × (length symbols.old ≡ object.records.view.symbols)
        × (object.records.view.symbols ≤ length by.old)
        × (object.records.view.sections ≤ length by.old) }
    ensures { (result
        ≡ checked_of
        (patch_refusal (of object_in object.entry.records)
        (of catalogue object.entry.records).maps 1 (patches_in list.entry)))
        × of ReadyToPatch object.entry.records list.entry.entries.now maps.now symbols.new by.new }
{
    if list.entries.is_empty() {
        return Ok(());
    }
    let count = symbols.len();
    let longest = longest_name(list.entries);
    by_name(object.records, longest, symbols, &mut by[..count]);
    maps_by_section(object, maps, by);
    patch_refusal(object, list, symbols, maps, by)
}

// The lent tables and bytes of an accepted catalogue: what is in them, and zeros behind.
#![tactic(auto)]

ghost use Rattle.std.specs.Prelude.{◌≡◌, ◌*◌, ◌≤◌, length, None};
ghost use Rattle.model.specs.Lent.{filled, bytes_of, image_of};
ghost use Rattle.model.specs.Refusals.{object_refusal};
ghost use Rattle.records.specs.Of.{of};
ghost use Rattle.object.specs.View.{object_in};
ghost use Rattle.catalogue_numbers.specs.Numbers.{section_numbers, program_numbers, map_numbers};
ghost use Rattle.bytes_layout.specs.Held.{At};
ghost use Rattle.bytes_layout.specs.Parts.{catalogue};

use bytes_layout::{Accepted, Places};
use records::{Object, Records};
use rows_maps::put_map_rows;
use rows_programs::put_program_rows;
use rows_sections::put_section_rows;

pub fn fill_sections(records: Records, numbers: &[u32], places: Places, out: &mut [u64])
    requires { (numbers.now ≡ of section_numbers records)
        × (length numbers.now ≤ 69632)
        × At (of catalogue records) places
        × (length numbers.now * 4 ≤ length out.old) }
    ensures { out.new ≡ filled 0 (length out.old) (image_of (of catalogue records.entry)).sections }
{
    put_section_rows(records, numbers, places.sections, out);
    out[numbers.len() * 4..].fill(0);
}

pub fn fill_programs(object: Object, numbers: &[u32], places: Places, out: &mut [u64])
    requires { (object_refusal (of object_in object.records) ≡ None)
        × (numbers.now ≡ of program_numbers object.records)
        × (length numbers.now ≤ 69632)
        × At (of catalogue object.records) places
        × (length numbers.now * 7 ≤ length out.old) }
    ensures { out.new ≡ filled 0 (length out.old) (image_of (of catalogue object.entry.records)).programs }
{
    put_program_rows(object, numbers, places.programs, out);
    out[numbers.len() * 7..].fill(0);
}

pub fn fill_maps(object: Object, numbers: &[u32], places: Places, out: &mut [u64])
    requires { (object_refusal (of object_in object.records) ≡ None)
        × (numbers.now ≡ of map_numbers object.records)
        × (length numbers.now ≤ 69632)
        × At (of catalogue object.records) places
        × (length numbers.now * 27 ≤ length out.old) }
    ensures { out.new ≡ filled 0 (length out.old) (image_of (of catalogue object.entry.records)).maps }
{
    put_map_rows(object, numbers, places.maps, places.own, out);
    out[numbers.len() * 27..].fill(0);
}

pub fn fill_bytes(accepted: Accepted, places: Places, out: &mut [u8])
    requires { At (of catalogue accepted.object.records) places
        × (length (bytes_of (of catalogue accepted.object.records)) ≤ length out.old) }
    ensures { out.new ≡ filled 0 (length out.old) (bytes_of (of catalogue accepted.entry.object.records)) }
{
    bytes_layout::put(accepted, out);
    out[places.end..].fill(0);
}

// The load of an object with its function table: the plain tables are filled with an array of record numbers of one size, and the rows of the
// function table follow by those.
#![tactic(auto)]

ghost use Rattle.std.specs.Prelude.{◌≡◌, ◌≤◌};
ghost use Rattle.model.specs.Lent.{lent, room_in, outcome, outcome_in};
ghost use Rattle.model.specs.Patching.{load};
ghost use Rattle.object.specs.View.{object_in};
ghost use Rattle.records.specs.Of.{of};
ghost use Rattle.patch_checks.specs.Lists.{patches_in};

use load_core::load_in_arrays;
use model::{Function, Refusal, Summary};
use patch_checks::PatchList;
use records::Object;
use rows_functions::{fill_functions, zero_row};

// Its array has N numbers, which are enough for the object's symbols. No call is laid into its caller, so that the array of each size has a frame of its own.
#[inline(never)]
pub fn load_functions<const N: usize>(
    object: Object,
    list: PatchList,
    rewrite: bool,
    sections: &mut [u64],
    programs: &mut [u64],
    functions: &mut [Function],
    maps: &mut [u64],
    relocations: &mut [u64],
    bytes: &mut [u8],
) -> Result<Summary, Refusal>
    requires { (object.records.view.symbols ≤ N) × (N ≤ 65536) }
    ensures { outcome result (lent sections.new programs.new functions.new maps.new relocations.new bytes.new)
        ≡ outcome_in (room_in
        (lent sections.old programs.old functions.old maps.old relocations.old bytes.old))
        (load (of object_in object.entry.records) (patches_in list.entry) rewrite) }
{
    let rows = functions.len();
    let mut symbols = [0u32; N];
    let loaded = load_in_arrays(
        object,
        list,
        rewrite,
        rows,
        sections,
        programs,
        maps,
        relocations,
        bytes,
        &mut symbols,
    );
    match loaded {
        Ok(loaded) => {
            let n = loaded.summary.functions as usize;
            fill_functions(functions, object, &symbols[..n], loaded.rows);
            Ok(loaded.summary)
        }
        Err(r) => {
            functions.fill(zero_row());
            Err(r)
        }
    }
}

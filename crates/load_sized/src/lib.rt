// The load of an object in arrays of one size.
#![tactic(auto)]

ghost use Rattle.std.specs.Prelude.{◌≡◌, ◌+◌, ◌≤◌, length};
ghost use Rattle.model.specs.Lent.{lent_room, outcome_in};
ghost use Rattle.model.specs.Patching.{load};
ghost use Rattle.object.specs.View.{object_in};
ghost use Rattle.records.specs.Of.{of};
ghost use Rattle.patch_checks.specs.Lists.{patches_in};
ghost use Rattle.load_object.specs.Done.{Done};

use load_object::{Loaded, load_object};
use model::Refusal;
use patch_checks::PatchList;
use records::Object;

// The arrays have S, P, M, A and B numbers, which are enough for the object's records: those of sections, programs and maps, and two that are worked in.
// No call is laid into its caller, so that the arrays of each size have a frame of their own.
#[inline(never)]
pub fn load_sized<const S: usize, const P: usize, const M: usize, const A: usize, const B: usize>(
    object: Object,
    list: PatchList,
    rewrite: bool,
    rows: usize,
    sections: &mut [u64],
    programs: &mut [u64],
    maps: &mut [u64],
    relocations: &mut [u64],
    bytes: &mut [u8],
    functions: &mut [u32],
) -> Result<Loaded, Refusal>
    requires { (object.records.view.sections ≤ S)
        × (object.records.view.symbols ≤ P)
        × (object.records.view.sections + object.records.view.symbols ≤ M)
        × (object.records.view.sections + object.records.view.symbols ≤ A)
        × (object.records.view.relocations ≤ A)
        × (object.records.view.sections ≤ B)
        × (object.records.view.symbols ≤ B)
        × (object.records.view.relocations ≤ B)
        × (S ≤ 69632)
        × (P ≤ 69632)
        × (M ≤ 69632)
        × (A ≤ 69632)
        × (B ≤ 69632)
        × (length functions.old ≡ object.records.view.symbols) }
    ensures { Done object.entry.records rows
        (outcome_in
        (lent_room (length sections.old) (length programs.old) rows (length maps.old) (length relocations.old)
        (length bytes.old))
        (load (of object_in object.entry.records) (patches_in list.entry) rewrite))
        result sections.new programs.new maps.new relocations.new bytes.new functions.new }
{
    let mut s = [0u32; S];
    let mut p = [0u32; P];
    let mut m = [0u32; M];
    let mut a = [0u32; A];
    let mut b = [0u32; B];
    load_object(
        object,
        list,
        rewrite,
        rows,
        sections,
        programs,
        maps,
        relocations,
        bytes,
        &mut s,
        &mut p,
        functions,
        &mut m,
        &mut a,
        &mut b,
    )
}

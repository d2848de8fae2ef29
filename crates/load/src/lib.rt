// The load call.
#![tactic(auto)]

ghost use Rattle.std.specs.Prelude.{◌≡◌};
ghost use Rattle.model.specs.Lent.{lent, room_in, outcome, load_of};

use deposit::open;
use load_opened::load_opened;
use model::{Function, Refusal, Summary};
use patch_checks::PatchList;

// A deposit is opened and loaded.
#[tactic(auto, using(load_core::specs::Opened::deposit_outcome))]
pub fn load(
    d: &[u8],
    entries: &[u64],
    patches: &[u8],
    rewrite: bool,
    sections: &mut [u64],
    programs: &mut [u64],
    functions: &mut [Function],
    maps: &mut [u64],
    relocations: &mut [u64],
    bytes: &mut [u8],
) -> Result<Summary, Refusal>
    ensures { outcome result (lent sections.new programs.new functions.new maps.new relocations.new bytes.new)
        ≡ load_of d.now entries.now patches.now rewrite
        (room_in
        (lent sections.old programs.old functions.old maps.old relocations.old bytes.old)) }
{
    let list = PatchList {
        entries,
        bytes: patches,
    };
    load_opened(
        open(d),
        list,
        rewrite,
        sections,
        programs,
        functions,
        maps,
        relocations,
        bytes,
    )
}

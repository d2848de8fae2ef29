// The load of what was opened: the array for its functions' record numbers is as large as the count of symbols asks.
#![tactic(auto)]

ghost use Rattle.std.specs.Prelude.{◌≡◌};
ghost use Rattle.model.specs.Lent.{lent, room_in, outcome, outcome_in};
ghost use Rattle.patch_checks.specs.Lists.{patches_in};
ghost use Rattle.load_core.specs.Opened.{verdict_in};

use load_fill::clear;
use load_functions::load_functions;
use model::{Function, Refusal, Summary};
use patch_checks::PatchList;
use records::Object;
use rows_functions::zero_row;

// An object that was opened is loaded; where it was refused, all that is lent is cleared.
#[tactic(auto, unfolding(model::specs::Lent::zeroed))]
pub fn load_opened(
    opened: Result<Object, Refusal>,
    list: PatchList,
    rewrite: bool,
    sections: &mut [u64],
    programs: &mut [u64],
    functions: &mut [Function],
    maps: &mut [u64],
    relocations: &mut [u64],
    bytes: &mut [u8],
) -> Result<Summary, Refusal>
    ensures { outcome result (lent sections.new programs.new functions.new maps.new relocations.new bytes.new)
        ≡ outcome_in (room_in
        (lent sections.old programs.old functions.old maps.old relocations.old bytes.old))
        (verdict_in opened.entry (patches_in list.entry) rewrite) }
{
    match opened {
        Err(r) => {
            clear(sections, programs, maps, relocations, bytes);
            functions.fill(zero_row());
            Err(r)
        }
        Ok(object) => {
            let symbols = object.records.view.symbols;
            if symbols <= 64 {
                load_functions::<64>(
                    object,
                    list,
                    rewrite,
                    sections,
                    programs,
                    functions,
                    maps,
                    relocations,
                    bytes,
                )
            } else if symbols <= 2048 {
                load_functions::<2048>(
                    object,
                    list,
                    rewrite,
                    sections,
                    programs,
                    functions,
                    maps,
                    relocations,
                    bytes,
                )
            } else {
                load_functions::<65536>(
                    object,
                    list,
                    rewrite,
                    sections,
                    programs,
                    functions,
                    maps,
                    relocations,
                    bytes,
                )
            }
        }
    }
}

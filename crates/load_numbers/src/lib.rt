// The load calls with the function table as numbers, seven a row: section, address, offset, name at, name length, code at, code length.
#![tactic(auto)]

ghost use Rattle.std.specs.Prelude.{◌≡◌, length};
ghost use Rattle.model.specs.FunctionNumbers.{flat, flat_of, flat_room};
ghost use Rattle.model.specs.Lent.{load_of, outcome_in};
ghost use Rattle.model.specs.Patching.{load};
ghost use Rattle.object.specs.View.{object_in};
ghost use Rattle.records.specs.Of.{of};
ghost use Rattle.patch_checks.specs.Lists.{patches_in};
ghost use Rattle.load_core.specs.Opened.{verdict_in};

use deposit::open;
use load_core::load_in_arrays;
use load_fill::clear;
use model::{Refusal, Summary};
use patch_checks::PatchList;
use records::Object;
use rows_numbers::fill_numbers;

// The load of an object that was opened.
#[tactic(auto, using(crate::proofs::Zeros::zeros_flat))]
fn load_flat_object(
    object: Object,
    list: PatchList,
    rewrite: bool,
    sections: &mut [u64],
    programs: &mut [u64],
    functions: &mut [u64],
    maps: &mut [u64],
    relocations: &mut [u64],
    bytes: &mut [u8],
) -> Result<Summary, Refusal>
    ensures { flat result sections.new programs.new functions.new maps.new relocations.new bytes.new
        ≡ flat_of (length functions.old)
        (outcome_in
        (flat_room sections.old programs.old functions.old
        maps.old relocations.old bytes.old)
        (load (of object_in object.entry.records) (patches_in list.entry) rewrite)) }
{
    // No object that was opened has more symbols.
    let mut symbols = [0u32; 65536];
    let rows = functions.len() / 7;
    let loaded = load_in_arrays(
        object,
        list,
        rewrite,
        rows,
        sections,
        programs,
        maps,
        relocations,
        bytes,
        &mut symbols,
    );
    match loaded {
        Ok(loaded) => {
            let n = loaded.summary.functions as usize;
            fill_numbers(functions, object, &symbols[..n], loaded.rows);
            Ok(loaded.summary)
        }
        Err(r) => {
            functions.fill(0);
            Err(r)
        }
    }
}

// The load of what was opened; where it was refused, all that is lent is cleared.
#[tactic(auto, using(crate::proofs::Zeros::zeros_flat), unfolding(model::specs::Lent::zeroed))]
pub fn load_flat_opened(
    opened: Result<Object, Refusal>,
    list: PatchList,
    rewrite: bool,
    sections: &mut [u64],
    programs: &mut [u64],
    functions: &mut [u64],
    maps: &mut [u64],
    relocations: &mut [u64],
    bytes: &mut [u8],
) -> Result<Summary, Refusal>
    ensures { flat result sections.new programs.new functions.new maps.new relocations.new bytes.new
        ≡ flat_of (length functions.old)
        (outcome_in
        (flat_room sections.old programs.old functions.old
        maps.old relocations.old bytes.old)
        (verdict_in opened.entry (patches_in list.entry) rewrite)) }
{
    match opened {
        Ok(object) => load_flat_object(
            object,
            list,
            rewrite,
            sections,
            programs,
            functions,
            maps,
            relocations,
            bytes,
        ),
        Err(r) => {
            clear(sections, programs, maps, relocations, bytes);
            functions.fill(0);
            Err(r)
        }
    }
}

// The load call for deposits.
#[tactic(auto, using(load_core::specs::Opened::deposit_outcome))]
pub fn load_flat(
    d: &[u8],
    entries: &[u64],
    patches: &[u8],
    rewrite: bool,
    sections: &mut [u64],
    programs: &mut [u64],
    functions: &mut [u64],
    maps: &mut [u64],
    relocations: &mut [u64],
    bytes: &mut [u8],
) -> Result<Summary, Refusal>
    ensures { flat result sections.new programs.new functions.new maps.new relocations.new bytes.new
        ≡ flat_of (length functions.old)
        (load_of d.now entries.now patches.now rewrite
        (flat_room sections.old programs.old functions.old
        maps.old relocations.old bytes.old)) }
{
    let list = PatchList {
        entries,
        bytes: patches,
    };
    load_flat_opened(
        open(d),
        list,
        rewrite,
        sections,
        programs,
        functions,
        maps,
        relocations,
        bytes,
    )
}

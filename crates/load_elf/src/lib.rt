// The load call for ELF files.
#![tactic(auto)]

ghost use Rattle.std.specs.Prelude.{◌≡◌};
ghost use Rattle.model.specs.ElfRefusals.{load_elf_of};
ghost use Rattle.model.specs.Lent.{lent, room_in, outcome};

use elf::index_length;
use elf_tables::check;
use load_file::load_file;
use model::{Function, Refusal, Summary};
use patch_checks::PatchList;

// A file is checked, opened and loaded, with its index in the array that its counts ask for.
#[tactic(auto, using(load_file::specs::Files::index_most))]
pub fn load_elf(
    d: &[u8],
    entries: &[u64],
    patches: &[u8],
    rewrite: bool,
    sections: &mut [u64],
    programs: &mut [u64],
    functions: &mut [Function],
    maps: &mut [u64],
    relocations: &mut [u64],
    bytes: &mut [u8],
) -> Result<Summary, Refusal>
    ensures { outcome result (lent sections.new programs.new functions.new maps.new relocations.new bytes.new)
        ≡ load_elf_of d.now entries.now patches.now rewrite
        (room_in
        (lent sections.old programs.old functions.old maps.old relocations.old bytes.old)) }
{
    let list = PatchList {
        entries,
        bytes: patches,
    };
    let checked = check(d);
    let numbers = index_length(checked);
    if numbers <= 512 {
        load_file::<512>(
            d,
            checked,
            list,
            rewrite,
            sections,
            programs,
            functions,
            maps,
            relocations,
            bytes,
        )
    } else if numbers <= 16384 {
        load_file::<16384>(
            d,
            checked,
            list,
            rewrite,
            sections,
            programs,
            functions,
            maps,
            relocations,
            bytes,
        )
    } else {
        load_file::<143360>(
            d,
            checked,
            list,
            rewrite,
            sections,
            programs,
            functions,
            maps,
            relocations,
            bytes,
        )
    }
}

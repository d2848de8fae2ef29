// The load call for ELF files with the function table as numbers, seven a row: section, address, offset, name at, name length, code at, code length.
#![tactic(auto)]

ghost use Rattle.std.specs.Prelude.{◌≡◌, length};
ghost use Rattle.model.specs.ElfRefusals.{load_elf_of};
ghost use Rattle.model.specs.FunctionNumbers.{flat, flat_of, flat_room};

use elf_tables::check;
use load_file::open_file;
use load_numbers::load_flat_opened;
use model::{Refusal, Summary};
use patch_checks::PatchList;

#[tactic(auto, using(load_file::specs::Files::file_outcome))]
pub fn load_flat_elf(
    d: &[u8],
    entries: &[u64],
    patches: &[u8],
    rewrite: bool,
    sections: &mut [u64],
    programs: &mut [u64],
    functions: &mut [u64],
    maps: &mut [u64],
    relocations: &mut [u64],
    bytes: &mut [u8],
) -> Result<Summary, Refusal>
    ensures { flat result sections.new programs.new functions.new maps.new relocations.new bytes.new
        ≡ flat_of (length functions.old)
        (load_elf_of d.now entries.now patches.now rewrite
        (flat_room sections.old programs.old functions.old
        maps.old relocations.old bytes.old)) }
{
    let list = PatchList {
        entries,
        bytes: patches,
    };
    // No index of a file is longer.
    let mut t = [0u32; 143360];
    load_flat_opened(
        open_file(d, check(d), &mut t),
        list,
        rewrite,
        sections,
        programs,
        functions,
        maps,
        relocations,
        bytes,
    )
}

// Reads an ELF file from standard input and writes its catalogue, or why it goes back.
#![tactic(auto)]

ghost use Rattle.std.specs.Prelude.{refl};
ghost use Rattle.model.specs.ElfRefusals.{file_listing_of};
ghost use Rattle.guarantees.specs.WordsOfDemand3.{Input};
ghost use Rattle.listing_laws.specs.Text.{file-text};

use listed::{Listed, run};
use load_elf_numbers::load_flat_elf;
use model::{Refusal, Summary};
use std::io;

struct File;

impl Listed for File {
    const MOST: usize = 1048576;

    const TOO_LONG: u32 = 26;

    ghost MOST = { 1048576 };

    ghost TOO_LONG = { 26 };

    ghost input = { Input.file };

    ghost text = { file_listing_of 1048576 };

    ghost bytes = { λ d. refl };

    ghost is = { file-text 1048576 };

    fn load(
        d: &[u8],
        sections: &mut [u64],
        programs: &mut [u64],
        functions: &mut [u64],
        maps: &mut [u64],
        relocations: &mut [u64],
        bytes: &mut [u8],
    ) -> Result<Summary, Refusal> {
        load_flat_elf(
            d,
            &[],
            &[],
            false,
            sections,
            programs,
            functions,
            maps,
            relocations,
            bytes,
        )
    }
}

// The room that is lent is what docs/CATALOGUE.md states, and one byte more than a file may have.
fn main(rt: HostRuntime) -> io::Result<()> {
    run::<File, 1048577, 16384, 28672, 28672, 27648, 32768, 1179648, 1867776>(&rt)
}

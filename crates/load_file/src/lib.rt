// The load of a file that was checked, with its index in an array of one size.
#![tactic(auto)]

ghost use Rattle.std.specs.Prelude.{◌≡◌, ◌≤◌, length};
ghost use Rattle.model.specs.ElfRefusals.{load_elf_of};
ghost use Rattle.model.specs.Lent.{lent, room_in, outcome};
ghost use Rattle.elf.specs.Opened.{index_length};
ghost use Rattle.load_file.specs.Files.{Checks, FileObject};

use elf::open;
use elf_layout::Layout;
use load_opened::load_opened;
use model::{Function, Refusal, Summary};
use patch_checks::PatchList;
use records::{Object, Records};

// Opens a file that was checked, with its index in t.
pub fn open_file<'a>(
    d: &'a [u8],
    checked: Result<Layout, Refusal>,
    t: &'a mut [u32],
) -> Result<Object<'a>, Refusal>
    requires { Checks d.now checked × (index_length checked ≤ length t.old) }
    ensures { FileObject d.now result }
{
    let view = open(d, checked, t)?;
    Ok(Object {
        records: Records {
            bytes: d,
            index: t,
            view,
        },
    })
}

// Its index has N numbers, which are enough for the file. No call is laid into its caller, so that the index of each size has a frame of its own.
#[inline(never)]
#[tactic(auto, using(crate::specs::Files::file_outcome))]
pub fn load_file<const N: usize>(
    d: &[u8],
    checked: Result<Layout, Refusal>,
    list: PatchList,
    rewrite: bool,
    sections: &mut [u64],
    programs: &mut [u64],
    functions: &mut [Function],
    maps: &mut [u64],
    relocations: &mut [u64],
    bytes: &mut [u8],
) -> Result<Summary, Refusal>
    requires { Checks d.now checked × (index_length checked ≤ N) × (N ≤ 143360) }
    ensures { outcome result (lent sections.new programs.new functions.new maps.new relocations.new bytes.new)
        ≡ load_elf_of d.now list.entry.entries.now list.entry.bytes.now rewrite
        (room_in
        (lent sections.old programs.old functions.old maps.old relocations.old bytes.old)) }
{
    let mut t = [0u32; N];
    load_opened(
        open_file(d, checked, &mut t),
        list,
        rewrite,
        sections,
        programs,
        functions,
        maps,
        relocations,
        bytes,
    )
}

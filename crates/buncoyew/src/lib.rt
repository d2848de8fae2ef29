// The load calls and the look-up in a function table, for programs in C and Rust to link: include/buncoyew.h.
#![tactic(auto)]

ghost use Rattle.std.specs.Prelude.{◌≡◌, [], ◌∷◌};
ghost use Rattle.model.specs.Lent.{lent, room_in, load_of};
ghost use Rattle.model.specs.ElfRefusals.{load_elf_of};
ghost use Rattle.model.specs.LookUp.{found_in, row_number};
ghost use Rattle.model.specs.AnswerNumbers.{accepted_answer, refused_answer, answer_of, call, call_of};

use load::load;
use load_elf::load_elf;
use model::{Function, LoadAnswer, Refusal, SectionIndex, Summary, SymbolIndex};
use rows_functions::find;

fn accepted(s: Summary) -> LoadAnswer
    ensures { result ≡ accepted_answer s }
{
    LoadAnswer {
        number: 0,
        section: SectionIndex(0),
        symbol: SymbolIndex(0),
        order: s.order as u32,
        entry: 0,
        versioned: u32::from(s.version.is_some()),
        version: s.version.unwrap_or(0),
        license: s.license,
        sections: s.sections,
        programs: s.programs,
        functions: s.functions,
        maps: s.maps,
        relocations: s.relocations,
        bytes: s.bytes,
    }
}

fn refused(r: Refusal) -> LoadAnswer
    ensures { result ≡ refused_answer r }
{
    LoadAnswer {
        number: r.number,
        section: r.section,
        symbol: r.symbol,
        order: 0,
        entry: r.entry,
        versioned: 0,
        version: 0,
        license: 0,
        sections: 0,
        programs: 0,
        functions: 0,
        maps: 0,
        relocations: 0,
        bytes: 0,
    }
}

fn answer_of(a: Result<Summary, Refusal>) -> LoadAnswer
    ensures { result ≡ answer_of a }
{
    match a {
        Ok(s) => accepted(s),
        Err(r) => refused(r),
    }
}

#[unsafe(no_mangle)]
pub extern "C" fn buncoyew_load(
    d: &[u8],
    entries: &[u64],
    patches: &[u8],
    rewrite: bool,
    sections: &mut [u64],
    programs: &mut [u64],
    functions: &mut [Function],
    maps: &mut [u64],
    relocations: &mut [u64],
    bytes: &mut [u8],
    answer: &mut LoadAnswer,
)
    ensures { call answer.new
        (lent sections.new programs.new functions.new maps.new relocations.new bytes.new)
        ≡ call_of
        (load_of d.now entries.now patches.now rewrite
        (room_in
        (lent sections.old programs.old functions.old maps.old relocations.old bytes.old))) }
{
    *answer = answer_of(load(
        d,
        entries,
        patches,
        rewrite,
        sections,
        programs,
        functions,
        maps,
        relocations,
        bytes,
    ));
}

// The same of an ELF file.
#[unsafe(no_mangle)]
pub extern "C" fn buncoyew_load_elf(
    d: &[u8],
    entries: &[u64],
    patches: &[u8],
    rewrite: bool,
    sections: &mut [u64],
    programs: &mut [u64],
    functions: &mut [Function],
    maps: &mut [u64],
    relocations: &mut [u64],
    bytes: &mut [u8],
    answer: &mut LoadAnswer,
)
    ensures { call answer.new
        (lent sections.new programs.new functions.new maps.new relocations.new bytes.new)
        ≡ call_of
        (load_elf_of d.now entries.now patches.now rewrite
        (room_in
        (lent sections.old programs.old functions.old maps.old relocations.old bytes.old))) }
{
    *answer = answer_of(load_elf(
        d,
        entries,
        patches,
        rewrite,
        sections,
        programs,
        functions,
        maps,
        relocations,
        bytes,
    ));
}

fn row_number(f: Option<usize>) -> u64
    ensures { result ≡ row_number f }
{
    match f {
        Some(i) => i as u64,
        None => u64::MAX,
    }
}

// The row of the function that starts at an address of a section, by a loaded table's first `count` rows; 2^64 - 1 where none does.
#[unsafe(no_mangle)]
pub extern "C" fn buncoyew_find(
    functions: &[Function],
    count: usize,
    section: SectionIndex,
    address: u64,
) -> u64
    ensures { result ≡ row_number (found_in functions.now count (section.0 ∷ address ∷ [])) }
{
    row_number(find(functions, count, section, address))
}

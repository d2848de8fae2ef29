// The listing of what a program reads: of a deposit or of an ELF file.
#![tactic(auto)]

ghost use Rattle.std.specs.Prelude.{◌≡◌, false, List, [], ℕ, ◌+◌, ◌*◌, ◌^◌, ◌<◌, ◌≤◌, length};
ghost use Rattle.model.specs.FunctionNumbers.{flat, flat_of, flat_room};
ghost use Rattle.model.specs.declared.Room.{Room};
ghost use Rattle.guarantees.specs.WordsOfDemand3.{Input, input_bytes, outcome_on};
ghost use Rattle.listing_laws.specs.Text.{text_within};

use input::{byte_room, number_room, read_full};
use listing_text::{push_answer, push_refusal};
use model::{Refusal, Summary};
use object_view::without_place;
use std::io;
use text::Text;

// What is listed has MOST bytes at most, and a longer one goes back with the number TOO_LONG.
pub trait Listed {
    const MOST: usize;

    const TOO_LONG: u32;

    ghost MOST: { ℕ };

    ghost TOO_LONG: { ℕ };

    ghost input: { List ℕ → Input };

    ghost text: { Room → List ℕ → List ℕ };

    // Its load, with no patches and no rewriting.
    fn load(
        d: &[u8],
        sections: &mut [u64],
        programs: &mut [u64],
        functions: &mut [u64],
        maps: &mut [u64],
        relocations: &mut [u64],
        bytes: &mut [u8],
    ) -> Result<Summary, Refusal>
        ensures { flat result sections.new programs.new functions.new maps.new relocations.new bytes.new
            ≡ flat_of (length functions.old)
            (outcome_on (input d.now) [] [] false
            (flat_room sections.old programs.old functions.old
            maps.old relocations.old bytes.old)) };

    ghost bytes: { (d : List ℕ) → input_bytes (input d) ≡ d };

    ghost is: { (room : Room) (d : List ℕ) → text room d ≡ text_within MOST TOO_LONG (input d) room };
}

// The text for d, in a text that is empty.
pub fn list<L: Listed, const N: usize>(
    d: &[u8],
    sections: &mut [u64],
    programs: &mut [u64],
    functions: &mut [u64],
    maps: &mut [u64],
    relocations: &mut [u64],
    bytes: &mut [u8],
    text: &mut Text<N>,
)
    requires { (length bytes.old + 10 * length programs.old + 11 * length functions.old + 3 * length maps.old + 71 ≤ N)
        × (N < 2 ^ 62)
        × (text.old ≡ []) }
    ensures { text.new
        ≡ L.text
        (flat_room sections.old programs.old functions.old
        maps.old relocations.old bytes.old)
        d.now }
{
    if L::MOST < d.len() {
        return push_refusal(text, without_place(L::TOO_LONG));
    }
    let answer = L::load(d, sections, programs, functions, maps, relocations, bytes);
    push_answer(text, answer, programs, functions, maps, bytes);
}

// Reads an input and writes its listing. What is lent has room for so many of each, and the text for all of them.
pub fn run<
    L: Listed,
    const INPUT: usize,
    const SECTIONS: usize,
    const PROGRAMS: usize,
    const FUNCTIONS: usize,
    const MAPS: usize,
    const RELOCATIONS: usize,
    const BYTES: usize,
    const TEXT: usize,
>(rt: &(impl Input + Print)) -> io::Result<()>
    requires { (BYTES + 10 * PROGRAMS + 11 * FUNCTIONS + 3 * MAPS + 71 ≤ TEXT)
        × (TEXT < 2 ^ 60)
        × (INPUT < 2 ^ 60)
        × (SECTIONS < 2 ^ 60)
        × (RELOCATIONS < 2 ^ 60) }
{
    let mut d = byte_room::<INPUT>();
    let n = read_full(&mut rt.reader(), &mut d)?;
    let mut sections = number_room::<SECTIONS>();
    let mut programs = number_room::<PROGRAMS>();
    let mut functions = number_room::<FUNCTIONS>();
    let mut maps = number_room::<MAPS>();
    let mut relocations = number_room::<RELOCATIONS>();
    let mut bytes = byte_room::<BYTES>();
    let mut text = Text::<TEXT>::new();
    list::<L, TEXT>(
        &d[..n],
        &mut sections,
        &mut programs,
        &mut functions,
        &mut maps,
        &mut relocations,
        &mut bytes,
        &mut text,
    );
    rt.write_all(text.as_bytes())
}

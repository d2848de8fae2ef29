// How an opened object lies in the bytes that were given, which index its records have for none, and refusals that name no place.
#![tactic(auto)]

ghost use Rattle.std.specs.Prelude.{◌≡◌};
ghost use Rattle.object_view.specs.NoIndex.{is_none};
ghost use Rattle.object_view.specs.Refused.{without_place};

use model::{Endianness, Refusal, SectionIndex, SymbolIndex};

// What was given: a deposit's blocks, or an ELF file.
#[derive(Clone, Copy)]
pub enum Form {
    Deposit,
    Elf,
}

// Where in the stream the tables (each its record 0), the names and the data begin. A file's extents are places of the file, so its names and data begin at 0.
#[derive(Clone, Copy)]
pub struct Places {
    pub sections: u32,
    pub symbols: u32,
    pub relocations: u32,
    pub names: u32,
    pub bytes: u32,
}

// Where a file's string tables begin: that of its sections' names and that of its symbols'.
#[derive(Clone, Copy)]
pub struct Strings {
    pub sections: u32,
    pub symbols: u32,
}

// An opened object: its form and byte order, how many records there are, and where they lie.
#[derive(Clone, Copy)]
pub struct View {
    pub form: Form,
    pub order: Endianness,
    pub sections: u32,
    pub symbols: u32,
    pub relocations: u32,
    pub at: Places,
    pub strings: Strings,
}

// A symbol's section where it has none, and a relocation's symbol.
pub const NO_INDEX: u32 = 0xFFFF_FFFF;

// The two types of index have one test each: a trait over them is longer than both.
pub fn is_no_section(index: SectionIndex) -> bool
    ensures { result ≡ is_none index.0 }
{
    index.0 == NO_INDEX
}

pub fn is_no_symbol(index: SymbolIndex) -> bool
    ensures { result ≡ is_none index.0 }
{
    index.0 == NO_INDEX
}

// A refusal that names neither a record nor an entry.
pub fn without_place(number: u32) -> Refusal
    ensures { result ≡ without_place number }
{
    Refusal {
        number,
        section: SectionIndex(0),
        symbol: SymbolIndex(0),
        entry: 0,
    }
}

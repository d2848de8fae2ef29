// The records of an ELF file, read where they lie. A number that the file's end cuts is 0; of an opened file none is.
#![tactic(auto)]

ghost use Rattle.std.specs.Prelude.{◌≡◌, ◌+◌, ◌*◌, ◌%◌, ◌^◌, ◌<◌, ◌≤◌, length, get_or};
ghost use Rattle.model.specs.Bytes.{part};
ghost use Rattle.model.specs.LicenceVersion.{number};
ghost use Rattle.elf_records.specs.Elf.{field_at, num, place_of, index_at, mark_of, data_range, section_or_none, kind_of_info, definition_of};
ghost use Rattle.elf_records.specs.Elf.{symbol_or_none, target_of, width_of, section_index_at, section_name_at, symbol_section_at, symbol_name_at};
ghost use Rattle.elf_records.specs.Elf.{symbol_address_at, relocation_offset_at, relocation_symbol_at, elf_section, elf_symbol, elf_relocation};

use model::{
    Endianness, Extent, RelocationRecord, SectionIndex, SectionRecord, SymbolIndex, SymbolRecord,
};
use object_view::{NO_INDEX, View, is_no_section};

// Number k of the index, 0 past its end.
#[tactic(auto, unfolding(crate::specs::Elf::index_at))]
pub fn index_at(t: &[u32], k: usize) -> u32
    ensures { result ≡ index_at t.now k }
{
    t.get(k).copied().unwrap_or(0)
}

// A file's bytes, and the byte order of its numbers.
#[derive(Clone, Copy)]
pub struct FileBytes<'a> {
    pub bytes: &'a [u8],
    pub order: Endianness,
}

// The numbers of two, four and eight bytes differ in their type alone, and a trait over it is longer than they are.
impl<'a> FileBytes<'a> {
    pub fn two(self, i: usize) -> u32
        requires { i + 2 ≤ length self.bytes.now }
        ensures { (result ≡ number self.entry.order (part self.entry.bytes.now i 2)) × (result < 65536) }
    {
        let bytes = [self.bytes[i], self.bytes[i + 1]];
        match self.order {
            Endianness::Little => u32::from(u16::from_le_bytes(bytes)),
            Endianness::Big => u32::from(u16::from_be_bytes(bytes)),
        }
    }

    pub fn four(self, i: usize) -> u32
        requires { i + 4 ≤ length self.bytes.now }
        ensures { result ≡ number self.entry.order (part self.entry.bytes.now i 4) }
    {
        let bytes = [
            self.bytes[i],
            self.bytes[i + 1],
            self.bytes[i + 2],
            self.bytes[i + 3],
        ];
        match self.order {
            Endianness::Little => u32::from_le_bytes(bytes),
            Endianness::Big => u32::from_be_bytes(bytes),
        }
    }

    pub fn eight(self, i: usize) -> u64
        requires { i + 8 ≤ length self.bytes.now }
        ensures { result ≡ number self.entry.order (part self.entry.bytes.now i 8) }
    {
        let bytes = [
            self.bytes[i],
            self.bytes[i + 1],
            self.bytes[i + 2],
            self.bytes[i + 3],
            self.bytes[i + 4],
            self.bytes[i + 5],
            self.bytes[i + 6],
            self.bytes[i + 7],
        ];
        match self.order {
            Endianness::Little => u64::from_le_bytes(bytes),
            Endianness::Big => u64::from_be_bytes(bytes),
        }
    }

    // The same, 0 where the end cuts them.
    #[tactic(auto, using(std::proofs::lemmas::Bool::Decides::nat_tests), unfolding(crate::specs::Elf::field_at))]
    fn u16_at(self, p: usize) -> u32
        requires { p < 2 ^ 62 }
        ensures { result ≡ field_at self.entry.order self.entry.bytes.now p 2 }
    {
        if p + 2 <= self.bytes.len() {
            self.two(p)
        } else {
            0
        }
    }

    #[tactic(auto, using(std::proofs::lemmas::Bool::Decides::nat_tests), unfolding(crate::specs::Elf::field_at))]
    fn u32_at(self, p: usize) -> u32
        requires { p < 2 ^ 62 }
        ensures { result ≡ field_at self.entry.order self.entry.bytes.now p 4 }
    {
        if p + 4 <= self.bytes.len() {
            self.four(p)
        } else {
            0
        }
    }

    #[tactic(auto, using(std::proofs::lemmas::Bool::Decides::nat_tests), unfolding(crate::specs::Elf::field_at))]
    fn u64_at(self, p: usize) -> u64
        requires { p < 2 ^ 62 }
        ensures { result ≡ field_at self.entry.order self.entry.bytes.now p 8 }
    {
        if p + 8 <= self.bytes.len() {
            self.eight(p)
        } else {
            0
        }
    }
}

fn u8_at(d: &[u8], p: usize) -> u8
    ensures { result ≡ get_or d.now p 0 }
{
    d.get(p).copied().unwrap_or(0)
}

// Sums and cuts to 32 bits; of an opened file none is cut.
fn sum(x: u32, y: u32) -> u32
    ensures { result ≡ (x + y) % 4294967296 }
{
    x.wrapping_add(y)
}

fn low(x: u64) -> u32
    ensures { result ≡ x % 4294967296 }
{
    (x % 4294967296) as u32
}

#[tactic(auto, using(std::proofs::lemmas::Bool::Decides::nat_tests), unfolding(crate::specs::Elf::mark_of))]
fn mark(sort: u32, flags: u64) -> u32
    ensures { result ≡ mark_of sort flags }
{
    if sort == 1 && flags / 2 % 4 == 3 {
        1
    } else {
        0
    }
}

#[tactic(auto, using(std::proofs::lemmas::Bool::Decides::nat_tests), unfolding(crate::specs::Elf::data_range))]
fn data_range(sort: u32, at: u64, n: u64) -> Extent
    ensures { result ≡ data_range sort at n }
{
    if sort == 8 || n == 0 {
        Extent { at: 0, length: 0 }
    } else {
        Extent {
            at: low(at),
            length: low(n),
        }
    }
}

#[tactic(auto, unfolding(crate::specs::Elf::section_index_at))]
pub fn section_index(i: u32) -> SectionIndex
    ensures { result ≡ section_index_at i }
{
    SectionIndex(sum(i, 1))
}

#[tactic(auto, using(std::proofs::lemmas::Bool::Decides::nat_tests), unfolding(crate::specs::Elf::section_or_none))]
fn section_or_none(shndx: u32) -> SectionIndex
    ensures { result ≡ section_or_none shndx }
{
    match shndx {
        0 | 65280.. => SectionIndex(NO_INDEX),
        _ => SectionIndex(shndx),
    }
}

#[tactic(auto, using(std::proofs::lemmas::Bool::Decides::nat_tests), unfolding(crate::specs::Elf::kind_of_info))]
fn kind(info: u8) -> u8
    ensures { result ≡ kind_of_info info }
{
    match info % 16 {
        2 => 1,
        1 => 2,
        _ => 0,
    }
}

#[tactic(auto, using(std::proofs::lemmas::Bool::Decides::nat_tests), unfolding(crate::specs::Elf::definition_of))]
fn definition(kind: u8, section: SectionIndex) -> u8
    ensures { result ≡ definition_of kind section }
{
    if kind == 0 || is_no_section(section) {
        0
    } else {
        1
    }
}

#[tactic(auto, using(std::proofs::lemmas::Bool::Decides::nat_tests), unfolding(crate::specs::Elf::symbol_or_none))]
fn symbol_or_none(x: u32) -> SymbolIndex
    ensures { result ≡ symbol_or_none x }
{
    if x == 0 {
        SymbolIndex(NO_INDEX)
    } else {
        SymbolIndex(x)
    }
}

#[tactic(auto, using(std::proofs::lemmas::Bool::Decides::nat_tests), unfolding(crate::specs::Elf::width_of))]
fn width(sort: u32) -> u8
    ensures { result ≡ width_of sort }
{
    match sort {
        1 => 64,
        10 => 32,
        _ => 0,
    }
}

fn target_symbol(info: u64) -> SymbolIndex
    ensures { result ≡ target_of info }
{
    symbol_or_none((info / 4294967296) as u32)
}

// A file's bytes, its index, and how its records lie in them.
#[derive(Clone, Copy)]
pub struct FileRecords<'a> {
    pub bytes: &'a [u8],
    pub index: &'a [u32],
    pub view: View,
}

impl<'a> FileRecords<'a> {
    fn file(self) -> FileBytes<'a>
        ensures bytes { result.bytes.now ≡ self.entry.bytes.now }
        ensures order { result.order ≡ self.entry.view.order }
    {
        FileBytes {
            bytes: self.bytes,
            order: self.view.order,
        }
    }

    #[tactic(auto, unfolding(crate::specs::Elf::section_name_at))]
    pub fn section_name(self, i: u32) -> Extent
        ensures { result ≡ section_name_at self.entry.bytes.now self.entry.index.now self.entry.view i }
    {
        let p = self.view.at.sections as usize + 64 * i as usize;
        Extent {
            at: sum(self.view.strings.sections, self.file().u32_at(p)),
            length: index_at(self.index, i as usize),
        }
    }

    // Where the relocations of section i lie, as the index says.
    fn relocations(self, i: u32) -> Extent
        ensures { (result.at ≡ index_at self.entry.index.now (self.entry.view.sections + self.entry.view.symbols + i))
            × (result.length ≡ index_at self.entry.index.now (2 * self.entry.view.sections + self.entry.view.symbols + i)) }
    {
        let v = self.view;
        let at = v.sections as usize + v.symbols as usize + i as usize;
        Extent {
            at: index_at(self.index, at),
            length: index_at(self.index, at + v.sections as usize),
        }
    }

    // Section header i + 1.
    #[tactic(auto, unfolding(crate::specs::Elf::elf_section))]
    pub fn section(self, i: u32) -> SectionRecord
        ensures { result ≡ elf_section self.entry.bytes.now self.entry.index.now self.entry.view i }
    {
        let file = self.file();
        let p = self.view.at.sections as usize + 64 * i as usize;
        let sort = file.u32_at(p + 4);
        let flags = file.u64_at(p + 8);
        let at = file.u64_at(p + 24);
        let n = file.u64_at(p + 32);
        SectionRecord {
            index: section_index(i),
            mark: mark(sort, flags),
            name: self.section_name(i),
            address: file.u64_at(p + 16),
            size: n,
            bytes: data_range(sort, at, n),
            relocations: self.relocations(i),
        }
    }

    #[tactic(auto, unfolding(crate::specs::Elf::symbol_section_at))]
    pub fn symbol_section(self, i: u32) -> SectionIndex
        ensures { result ≡ symbol_section_at self.entry.bytes.now self.entry.view i }
    {
        let p = self.view.at.symbols as usize + 24 * i as usize;
        section_or_none(self.file().u16_at(p + 6))
    }

    #[tactic(auto, unfolding(crate::specs::Elf::symbol_name_at))]
    pub fn symbol_name(self, i: u32) -> Extent
        ensures { result ≡ symbol_name_at self.entry.bytes.now self.entry.index.now self.entry.view i }
    {
        let p = self.view.at.symbols as usize + 24 * i as usize;
        Extent {
            at: sum(self.view.strings.symbols, self.file().u32_at(p)),
            length: index_at(self.index, self.view.sections as usize + i as usize),
        }
    }

    #[tactic(auto, unfolding(crate::specs::Elf::symbol_address_at))]
    pub fn symbol_address(self, i: u32) -> u64
        ensures { result ≡ symbol_address_at self.entry.bytes.now self.entry.view i }
    {
        self.file()
            .u64_at(self.view.at.symbols as usize + 24 * i as usize + 8)
    }

    // Symbol i + 1 of the symbol table.
    #[tactic(auto, unfolding(crate::specs::Elf::elf_symbol))]
    pub fn symbol(self, i: u32) -> SymbolRecord
        ensures { result ≡ elf_symbol self.entry.bytes.now self.entry.index.now self.entry.view i }
    {
        let p = self.view.at.symbols as usize + 24 * i as usize;
        let section = self.symbol_section(i);
        let kind = kind(u8_at(self.bytes, p + 4));
        SymbolRecord {
            index: SymbolIndex(sum(i, 1)),
            section,
            name: self.symbol_name(i),
            address: self.symbol_address(i),
            size: self.file().u64_at(p + 16),
            kind,
            definition: definition(kind, section),
            reserved: 0,
        }
    }

    // Where relocation k lies, as the index says.
    fn relocation_at(self, k: u32) -> usize
        ensures { (result ≡ index_at self.entry.index.now (3 * self.entry.view.sections + self.entry.view.symbols + k)) × (result < 2 ^ 32) }
    {
        index_at(
            self.index,
            3 * self.view.sections as usize + self.view.symbols as usize + k as usize,
        ) as usize
    }

    #[tactic(auto, unfolding(crate::specs::Elf::relocation_offset_at))]
    pub fn relocation_offset(self, k: u32) -> u64
        ensures { result ≡ relocation_offset_at self.entry.bytes.now self.entry.index.now self.entry.view k }
    {
        self.file().u64_at(self.relocation_at(k))
    }

    // The number that holds a relocation's symbol and type.
    fn relocation_info(self, k: u32) -> u64
        ensures { result ≡ num self.entry.bytes.now self.entry.view (place_of self.entry.bytes.now self.entry.index.now self.entry.view k + 8) 8 }
    {
        self.file().u64_at(self.relocation_at(k) + 8)
    }

    #[tactic(auto, unfolding(crate::specs::Elf::relocation_symbol_at))]
    pub fn relocation_symbol(self, k: u32) -> SymbolIndex
        ensures { result ≡ relocation_symbol_at self.entry.bytes.now self.entry.index.now self.entry.view k }
    {
        target_symbol(self.relocation_info(k))
    }

    // The first sixteen bytes of a REL or RELA entry.
    #[tactic(auto, unfolding(crate::specs::Elf::elf_relocation, crate::specs::Elf::relocation_symbol_at))]
    pub fn relocation(self, k: u32) -> RelocationRecord
        ensures { result ≡ elf_relocation self.entry.bytes.now self.entry.index.now self.entry.view k }
    {
        let info = self.relocation_info(k);
        RelocationRecord {
            offset: self.relocation_offset(k),
            symbol: target_symbol(info),
            size: width(low(info)),
            reserved: 0,
        }
    }
}

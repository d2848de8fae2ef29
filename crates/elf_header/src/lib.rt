// The header of an ELF file and its section headers by number, read where they lie.
#![tactic(auto)]

ghost use Rattle.std.specs.Prelude.{◌≡◌, ◌||◌, ◌+◌, ◌*◌, ◌^◌, ◌<◌, ◌≤◌, min, eqb, length};
ghost use Rattle.model.specs.Elf.{file_order, entry_count};
ghost use Rattle.elf_header.specs.Headers.{header_in, header_field, entries_at, file_header_of, present_sections, first_place, headers_of};
ghost use Rattle.elf_header.specs.Used.{used_by, entry_size_of};

use elf_records::FileBytes;
use model::Endianness;

// What the file header says: the byte order, and of the section header table its place, how many entries it has, and the number of its string table.
#[derive(Clone, Copy)]
pub struct FileHeader {
    pub order: Endianness,
    pub at: u64,
    pub count: u32,
    pub names: u32,
}

// The sections' headers: where that of section 1 lies, and how many there are.
#[derive(Clone, Copy)]
pub struct Headers {
    pub order: Endianness,
    pub first: usize,
    pub sections: u32,
}

// A file's bytes, and where its section headers lie in them.
#[derive(Clone, Copy)]
pub struct Sections<'a> {
    pub bytes: &'a [u8],
    pub headers: Headers,
}

#[tactic(auto, unfolding(model::specs::Elf::file_order))]
pub fn file_order(d: &[u8]) -> Endianness
    ensures { result ≡ file_order d.now }
{
    if d.len() > 5 && d[5] == 2 {
        Endianness::Big
    } else {
        Endianness::Little
    }
}

// e_shnum; without a section header table there are no entries.
fn entries(file: FileBytes, at: u64) -> u32
    requires { 64 ≤ length file.bytes.now }
    ensures { result ≡ entries_at file.entry.bytes.now file.entry.order at }
{
    if at == 0 { 0 } else { file.two(60) }
}

#[tactic(auto, unfolding(crate::specs::Headers::file_header_of, model::specs::Elf::file_of))]
pub fn file_header(d: &[u8]) -> FileHeader
    requires { 64 ≤ length d.now }
    ensures { result ≡ file_header_of d.now }
{
    let order = file_order(d);
    let file = FileBytes { bytes: d, order };
    let at = file.eight(40);
    FileHeader {
        order,
        at,
        count: entries(file, at),
        names: file.two(62),
    }
}

// Of a cut header the first 48 bytes are present.
fn present_sections(len: usize, h: FileHeader) -> u32
    requires { len < 2 ^ 63 }
    ensures { result ≡ present_sections len h }
{
    let present = (len as u64 + 16).saturating_sub(h.at) / 64;
    let n = u64::from(h.count).min(present) as u32;
    n.saturating_sub(1)
}

fn first_place(at: u64, sections: u32) -> usize
    requires { at + 64 * sections < 2 ^ 64 }
    ensures { result ≡ first_place at sections }
{
    if sections == 0 { 0 } else { at as usize + 64 }
}

// The section headers that are present in the file.
#[tactic(auto, unfolding(crate::specs::Headers::headers_of))]
pub fn section_headers(d: &[u8], h: FileHeader) -> Sections
    ensures bytes { result.bytes.now ≡ d.now }
    ensures headers { result.headers ≡ headers_of (length d.now) h }
{
    let sections = present_sections(d.len(), h);
    Sections {
        bytes: d,
        headers: Headers {
            order: h.order,
            first: first_place(h.at, sections),
            sections,
        },
    }
}

pub fn is_relocations(kind: u32) -> bool
    ensures { result ≡ (eqb kind 9 || eqb kind 4) }
{
    kind == 9 || kind == 4
}

// The size of an entry of a symbol or relocation table.
pub fn entry_size(kind: u32) -> u64
    ensures { (result ≡ entry_size_of kind) × (16 ≤ result) × (result ≤ 24) }
{
    if kind == 9 { 16 } else { 24 }
}

// Sections are counted from 0 here.
impl<'a> Sections<'a> {
    // The four bytes at `at` of a section's header.
    fn four(self, i: u32, at: usize) -> u32
        requires { (self.headers.first + 64 * i + 48 ≤ length self.bytes.now) × (at + 4 ≤ 48) }
        ensures { result ≡ header_field self.entry.bytes.now self.entry.headers i at 4 }
    {
        let file = FileBytes {
            bytes: self.bytes,
            order: self.headers.order,
        };
        file.four(self.headers.first + 64 * i as usize + at)
    }

    fn eight(self, i: u32, at: usize) -> u64
        requires { (self.headers.first + 64 * i + 48 ≤ length self.bytes.now) × (at + 8 ≤ 48) }
        ensures { result ≡ header_field self.entry.bytes.now self.entry.headers i at 8 }
    {
        let file = FileBytes {
            bytes: self.bytes,
            order: self.headers.order,
        };
        file.eight(self.headers.first + 64 * i as usize + at)
    }

    #[tactic(auto, unfolding(model::specs::Elf::header_of))]
    pub fn section_type(self, i: u32) -> u32
        requires { self.headers.first + 64 * i + 48 ≤ length self.bytes.now }
        ensures { result ≡ (header_in self.entry.bytes.now self.entry.headers i).kind }
    {
        self.four(i, 4)
    }

    #[tactic(auto, unfolding(model::specs::Elf::header_of))]
    pub fn section_offset(self, i: u32) -> u64
        requires { self.headers.first + 64 * i + 48 ≤ length self.bytes.now }
        ensures { result ≡ (header_in self.entry.bytes.now self.entry.headers i).offset }
    {
        self.eight(i, 24)
    }

    #[tactic(auto, unfolding(model::specs::Elf::header_of))]
    pub fn section_size(self, i: u32) -> u64
        requires { self.headers.first + 64 * i + 48 ≤ length self.bytes.now }
        ensures { result ≡ (header_in self.entry.bytes.now self.entry.headers i).size }
    {
        self.eight(i, 32)
    }

    #[tactic(auto, unfolding(model::specs::Elf::header_of))]
    pub fn section_link(self, i: u32) -> u32
        requires { self.headers.first + 64 * i + 48 ≤ length self.bytes.now }
        ensures { result ≡ (header_in self.entry.bytes.now self.entry.headers i).link }
    {
        self.four(i, 40)
    }

    #[tactic(auto, unfolding(model::specs::Elf::header_of))]
    pub fn section_info(self, i: u32) -> u32
        requires { self.headers.first + 64 * i + 48 ≤ length self.bytes.now }
        ensures { result ≡ (header_in self.entry.bytes.now self.entry.headers i).info }
    {
        self.four(i, 44)
    }

    // Tells whether section i is a REL or RELA table linked to section `table`, but for one of section 0.
    pub fn in_use(self, table: u32, i: u32) -> bool
        requires { self.headers.first + 64 * i + 48 ≤ length self.bytes.now }
        ensures { result ≡ used_by table (header_in self.entry.bytes.now self.entry.headers i) }
    {
        is_relocations(self.section_type(i))
            && self.section_link(i) == table
            && self.section_info(i) != 0
    }

    // How many whole entries a table has.
    pub fn entry_count(self, i: u32) -> u64
        requires { self.headers.first + 64 * i + 48 ≤ length self.bytes.now }
        ensures { result ≡ entry_count (header_in self.entry.bytes.now self.entry.headers i) }
    {
        self.section_size(i) / entry_size(self.section_type(i))
    }
}

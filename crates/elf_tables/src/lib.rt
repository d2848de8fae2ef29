// Numbers 25 and 26 of an ELF file by its headers, all but the names; the layout of a file that passes.
#![tactic(auto)]

ghost use Rattle.std.specs.Prelude.{◌≡◌, true, ◌||◌, ◌+◌, ◌*◌, ◌<◌, ◌≤◌, eqb, length, Err};
ghost use Rattle.model.specs.Bytes.{maybe, inside};
ghost use Rattle.model.specs.Deposit.{all};
ghost use Rattle.model.specs.Elf.{whole_entries};
ghost use Rattle.model.specs.ElfRefusals.{entry_ok, header_ok, links_strings, reloc_table_ok};
ghost use Rattle.elf_header.specs.Headers.{header_in, file_header_of, headers_in};
ghost use Rattle.elf_header.specs.Used.{used_in};
ghost use Rattle.elf_layout.specs.Layout.{table_symbols, symbols_start, checked_file};
ghost use Rattle.elf_tables.specs.Numbered.{Present, sections_by, section_by, table_by, IndexBy, file_by};
ghost use Rattle.elf_tables.specs.Checked.{kind_by, room_ok, linked_type, symbol_table_fits, counted_by, tables_by};
ghost use Rattle.elf_tables.specs.Placed.{table_link, strings_by, Reaches, layout_by};

use elf_header::{
    FileHeader, Sections, entry_size, file_header, file_order, is_relocations, section_headers,
};
use elf_ident::{field_is, first_bytes_ok};
use elf_layout::Layout;
use model::Refusal;
use object_view::{Form, Places, Strings, View, without_place};
use std::ops::Range;

// A file whose section headers have their first 48 bytes present, and the number of its first symbol table.
// Where there is none, that is 0, which no section has in ELF: the tables in use are then those linked to 0.
#[derive(Clone, Copy)]
struct ElfFile<'a> {
    header: FileHeader,
    sections: Sections<'a>,
    table: u32,
    ghost present: { Present sections.bytes.now sections.headers },
}

fn symbol_table(sections: Sections) -> u32
    requires { Present sections.bytes.now sections.headers }
    ensures { result ≡ table_by sections.entry.bytes.now sections.entry.headers }
{
    for i in 0..sections.headers.sections {
        if sections.section_type(i) == 2 {
            return i + 1;
        }
    }
    0
}

// Tells whether n bytes from a place on end within len bytes; their sum may pass 64 bits.
fn inside_file(len: usize, at: u64, n: u64) -> bool
    ensures { result ≡ inside at n len }
{
    let most = len as u64;
    n <= most && at <= most - n
}

// The length and the count of entries keep their limits, and the table of section headers lies inside the file.
#[tactic(auto, unfolding(crate::specs::Checked::room_ok))]
fn room_ok(len: usize, f: FileHeader) -> bool
    ensures { result ≡ room_ok len f }
{
    len <= 16777216
        && f.count <= 4097
        && (f.count == 0 || inside_file(len, f.at, 64 * u64::from(f.count)))
}

impl<'a> ElfFile<'a> {
    fn read(d: &'a [u8]) -> Self
        requires { 64 ≤ length d.now }
        ensures bytes { result.sections.bytes.now ≡ d.now }
        ensures header { result.header ≡ file_header_of d.now }
        ensures headers { result.sections.headers ≡ headers_in d.now }
        ensures table { result.table ≡ table_by d.now (headers_in d.now) }
    {
        let header = file_header(d);
        let sections = section_headers(d, header);
        let table = symbol_table(sections);
        ElfFile {
            header,
            sections,
            table,
        }
    }

    // Where the header of section n stands, counted from 0. Number 0 is no section.
    fn index(self, n: u32) -> Option<u32>
        ensures { IndexBy self.entry.sections.bytes.now self.entry.sections.headers n result }
    {
        if n == 0 || n > self.sections.headers.sections {
            None
        } else {
            Some(n - 1)
        }
    }

    // ---- 25

    // Compares sh_entsize of section i, as far as it is present.
    fn entry_ok(self, i: u32) -> bool
        requires { i < self.sections.headers.sections }
        ensures { result ≡ entry_ok self.entry.sections.headers.order (header_in self.entry.sections.bytes.now self.entry.sections.headers i) }
    {
        let h = self.sections.headers;
        let width = entry_size(self.sections.section_type(i));
        let at = h.first + 64 * i as usize + 56;
        field_is(self.sections.bytes, h.order, at, 8, width as u8)
    }

    fn table_entry_ok(self) -> bool
        ensures { result
            ≡ maybe (section_by self.entry.sections.bytes.now self.entry.sections.headers self.entry.table) true
            (entry_ok self.entry.sections.headers.order) }
    {
        match self.index(self.table) {
            Some(i) => self.entry_ok(i),
            None => true,
        }
    }

    fn used_entries_ok(self) -> bool
        ensures { result
            ≡ all (entry_ok self.entry.sections.headers.order)
            (used_in self.entry.sections.bytes.now self.entry.sections.headers self.entry.table) }
    {
        for i in 0..self.sections.headers.sections {
            if self.sections.in_use(self.table, i) && !self.entry_ok(i) {
                return false;
            }
        }
        true
    }

    #[tactic(auto, unfolding(crate::specs::Checked::kind_by))]
    fn kind_ok(self) -> bool
        ensures { result ≡ kind_by self.entry.sections.bytes.now self.entry.sections.headers self.entry.table }
    {
        first_bytes_ok(self.sections.bytes, self.sections.headers.order)
            && self.table_entry_ok()
            && self.used_entries_ok()
    }

    // ---- 26

    // The type of the section that a link names.
    #[tactic(auto, unfolding(crate::specs::Checked::linked_type))]
    fn linked_type(self, n: u32) -> Option<u32>
        ensures { result ≡ linked_type (sections_by self.entry.sections.bytes.now self.entry.sections.headers) n }
    {
        let i = self.index(n)?;
        Some(self.sections.section_type(i))
    }

    fn links_strings(self, n: u32) -> bool
        ensures { result ≡ links_strings (sections_by self.entry.sections.bytes.now self.entry.sections.headers) n }
    {
        match self.linked_type(n) {
            Some(kind) => kind == 3,
            None => false,
        }
    }

    fn names_linked(self) -> bool
        ensures { result
            ≡ (eqb self.entry.header.count 0
            || links_strings (sections_by self.entry.sections.bytes.now self.entry.sections.headers) self.entry.header.names) }
    {
        self.header.count == 0 || self.links_strings(self.header.names)
    }

    fn whole_entries(self, i: u32) -> bool
        requires { i < self.sections.headers.sections }
        ensures { result ≡ whole_entries (header_in self.entry.sections.bytes.now self.entry.sections.headers i) }
    {
        let width = entry_size(self.sections.section_type(i));
        self.sections.section_size(i) % width == 0
    }

    #[tactic(auto, unfolding(crate::specs::Checked::symbol_table_fits))]
    fn symbol_table_fits(self) -> bool
        ensures { result
            ≡ symbol_table_fits (sections_by self.entry.sections.bytes.now self.entry.sections.headers)
            (section_by self.entry.sections.bytes.now self.entry.sections.headers self.entry.table) }
    {
        match self.index(self.table) {
            Some(i) => {
                self.sections.entry_count(i) <= 65537
                    && self.links_strings(self.sections.section_link(i))
                    && self.whole_entries(i)
            }
            None => true,
        }
    }

    #[tactic(auto, unfolding(model::specs::ElfRefusals::header_ok))]
    fn header_ok(self, i: u32) -> bool
        requires { i < self.sections.headers.sections }
        ensures { result
            ≡ header_ok (length self.entry.sections.bytes.now)
            (header_in self.entry.sections.bytes.now self.entry.sections.headers i) }
    {
        let n = self.sections.section_size(i);
        let is_nobits = self.sections.section_type(i) == 8;
        n <= 16777216
            && (is_nobits
                || n == 0
                || inside_file(
                    self.sections.bytes.len(),
                    self.sections.section_offset(i),
                    n,
                ))
    }

    #[tactic(auto, unfolding(model::specs::ElfRefusals::reloc_table_ok))]
    fn reloc_table_ok(self, i: u32) -> bool
        requires { i < self.sections.headers.sections }
        ensures { result
            ≡ reloc_table_ok (sections_by self.entry.sections.bytes.now self.entry.sections.headers)
            (header_in self.entry.sections.bytes.now self.entry.sections.headers i) }
    {
        match self.linked_type(self.sections.section_info(i)) {
            Some(kind) => !is_relocations(kind) && self.whole_entries(i),
            None => false,
        }
    }

    // Counts the relocations; None where a section or a table in use breaks a rule.
    fn count_relocations(self) -> Option<u32>
        ensures { result ≡ counted_by self.entry.sections.bytes.now self.entry.sections.headers self.entry.table }
    {
        let mut n: u64 = 0;
        for i in 0..self.sections.headers.sections {
            if !self.header_ok(i) {
                return None;
            }
            if self.sections.in_use(self.table, i) {
                if !self.reloc_table_ok(i) {
                    return None;
                }
                n += self.sections.entry_count(i);
            }
        }
        if n > 65536 {
            return None;
        }
        Some(n as u32)
    }

    // Counts them; None where any rule of 26 but those of names is broken.
    fn check_tables(self) -> Option<u32>
        requires { 64 ≤ length self.sections.bytes.now }
        ensures { result
            ≡ tables_by self.entry.sections.bytes.now
            (file_by self.entry.sections.bytes.now self.entry.header self.entry.sections.headers self.entry.table) }
    {
        if room_ok(self.sections.bytes.len(), self.header)
            && self.names_linked()
            && self.symbol_table_fits()
        {
            self.count_relocations()
        } else {
            None
        }
    }

    // ---- the layout

    // Where string table n begins and ends; one without bytes is nowhere.
    #[tactic(auto, unfolding(crate::specs::Placed::strings_by))]
    fn strings(self, n: u32) -> Range<u32>
        requires { (strings_by (sections_by self.sections.bytes.now self.sections.headers) n).end ≤ 16777216 }
        ensures { result ≡ strings_by (sections_by self.entry.sections.bytes.now self.entry.sections.headers) n }
    {
        let Some(i) = self.index(n) else {
            return 0..0;
        };
        let bytes = self.sections.section_size(i);
        if bytes == 0 {
            return 0..0;
        }
        let at = self.sections.section_offset(i);
        at as u32..(at + bytes) as u32
    }

    // The number of the symbols' string table; without a symbol table that of no section.
    fn table_link(self) -> u32
        ensures { result ≡ table_link (section_by self.entry.sections.bytes.now self.entry.sections.headers self.entry.table) }
    {
        match self.index(self.table) {
            Some(i) => self.sections.section_link(i),
            None => 0,
        }
    }

    // Entry 0 is no symbol.
    fn symbol_count(self) -> u32
        requires { maybe (section_by self.sections.bytes.now self.sections.headers self.table) 0 table_symbols ≤ 65536 }
        ensures { result
            ≡ maybe (section_by self.entry.sections.bytes.now self.entry.sections.headers self.entry.table) 0 table_symbols }
    {
        match self.index(self.table) {
            Some(i) => self.sections.entry_count(i).saturating_sub(1) as u32,
            None => 0,
        }
    }

    fn symbols_start(self) -> u32
        requires { maybe (section_by self.sections.bytes.now self.sections.headers self.table) 0 symbols_start ≤ 16777216 }
        ensures { result
            ≡ maybe (section_by self.entry.sections.bytes.now self.entry.sections.headers self.entry.table) 0 symbols_start }
    {
        match self.index(self.table) {
            Some(i) if self.sections.entry_count(i) > 1 => {
                (self.sections.section_offset(i) + 24) as u32
            }
            _ => 0,
        }
    }

    #[tactic(auto, unfolding(crate::specs::Placed::layout_by, crate::specs::Numbered::file_by))]
    fn layout(self, relocations: u32) -> Layout
        requires { Reaches self.sections.headers
            (file_by self.sections.bytes.now self.header self.sections.headers self.table) }
        ensures { result
            ≡ layout_by self.entry.sections.headers
            (file_by self.entry.sections.bytes.now self.entry.header self.entry.sections.headers self.entry.table)
            self.entry.table relocations }
    {
        let h = self.sections.headers;
        let names = self.strings(self.header.names);
        let symbols = self.strings(self.table_link());
        let view = View {
            form: Form::Elf,
            order: h.order,
            sections: h.sections,
            symbols: self.symbol_count(),
            relocations,
            at: Places {
                sections: h.first as u32,
                symbols: self.symbols_start(),
                relocations: 0,
                names: 0,
                bytes: 0,
            },
            strings: Strings {
                sections: names.start,
                symbols: symbols.start,
            },
        };
        Layout {
            view,
            ends: Strings {
                sections: names.end,
                symbols: symbols.end,
            },
            table: self.table,
        }
    }
}

// A file without a whole header has no sections, and is 26 where it is not 25.
fn check_short(d: &[u8]) -> Refusal
    requires { length d.now < 64 }
    ensures { checked_file d.now ≡ Err result }
{
    if first_bytes_ok(d, file_order(d)) {
        without_place(26)
    } else {
        without_place(25)
    }
}

// Checks a file's headers and tables.
pub fn check(d: &[u8]) -> Result<Layout, Refusal>
    ensures { result ≡ checked_file d.now }
{
    if d.len() < 64 {
        return Err(check_short(d));
    }
    let file = ElfFile::read(d);
    if !file.kind_ok() {
        return Err(without_place(25));
    }
    match file.check_tables() {
        Some(relocations) => Ok(file.layout(relocations)),
        None => Err(without_place(26)),
    }
}

// The one door to records: a deposit's or an ELF file's, by number, through a view; what a map's number stands for; and the walk over record numbers.
#![tactic(auto)]

ghost use Rattle.std.specs.Prelude.{◌≡◌, ◌+◌, ◌^◌, ◌<◌, ◌≤◌, List, ℕ, length};
ghost use Rattle.model.specs.Bytes.{u32};
ghost use Rattle.model.specs.Deposit.{byte_order, end_of, extent as extent_of, section_record, symbol_record, relocation_record};
ghost use Rattle.stream.specs.Stream.{bytes_at};
ghost use Rattle.stream.specs.Spans.{bytes_of};
ghost use Rattle.records.specs.Records.{head_at, symbols_at, relocations_at, names_at, data_at, extent_in, deposit_section, deposit_symbol};
ghost use Rattle.records.specs.Records.{deposit_relocation, cursor, step_of};
ghost use Rattle.records.specs.View.{gap_of, name_in, data_in, deposit_view, section_at, symbol_at, relocation_at};
ghost use Rattle.records.specs.Of.{of};
ghost use Rattle.records.specs.Maps.{map_source_of, map_number_of, map_name_at};

pub mod opened;

use elf_records::FileRecords;
use model::{
    Endianness, Extent, Head, RelocationRecord, SectionIndex, SectionRecord, SymbolIndex,
    SymbolRecord,
};
use object_view::{Form, Places, Strings, View};
pub use opened::{Object, Records};
use stream::{Span, Stream, eight, four};

// The stream of a deposit: its checks stand between the blocks.
pub fn deposit_stream(d: &[u8]) -> Stream<'_>
    ensures bytes { result.bytes.now ≡ d.now }
    ensures gap { result.gap ≡ 4 }
{
    Stream { bytes: d, gap: 4 }
}

fn head(d: &[u8]) -> Head
    ensures { result ≡ head_at d.now }
{
    let stream = deposit_stream(d);
    Head {
        order: stream.u32_at(0),
        sections: stream.u32_at(4),
        symbols: stream.u32_at(8),
        relocations: stream.u32_at(12),
        names: stream.u32_at(16),
        bytes: stream.u32_at(20),
        reserved: stream.u64_at(24),
    }
}

// A record that stands in N bytes of a deposit: `read` says which.
trait Record<const N: usize>: Sized {
    ghost read: { List ℕ → Self };

    fn from_bytes(s: &[u8]) -> Self
        requires { length s.now ≡ N }
        ensures { result ≡ read s.now };
}

// The record at byte p of a deposit's stream: read where it lies in one block, else from a copy.
fn record_at<const N: usize, R: Record<N>>(d: &[u8], p: usize) -> R
    requires { (p < 2 ^ 60) × (N ≤ 508) }
    ensures { result ≡ R.read (bytes_at d.now 4 p N) }
{
    let stream = deposit_stream(d);
    match stream.slice(p, N) {
        Some(s) => R::from_bytes(s),
        None => {
            let mut s = [0u8; N];
            stream.copy_bytes(p, &mut s);
            R::from_bytes(&s)
        }
    }
}

fn extent(s: &[u8], k: usize) -> Extent
    requires { k + 8 ≤ length s.now }
    ensures { result ≡ extent_of (u32 s.now k) (u32 s.now (k + 4)) }
{
    Extent {
        at: four(s, k),
        length: four(s, k + 4),
    }
}

impl Record<8> for Extent {
    ghost read = { extent_in };

    fn from_bytes(s: &[u8]) -> Self {
        extent(s, 0)
    }
}

impl Record<48> for SectionRecord {
    ghost read = { section_record };

    fn from_bytes(s: &[u8]) -> Self {
        SectionRecord {
            index: SectionIndex(four(s, 0)),
            mark: four(s, 4),
            name: extent(s, 8),
            address: eight(s, 16),
            size: eight(s, 24),
            bytes: extent(s, 32),
            relocations: extent(s, 40),
        }
    }
}

impl Record<40> for SymbolRecord {
    ghost read = { symbol_record };

    fn from_bytes(s: &[u8]) -> Self {
        SymbolRecord {
            index: SymbolIndex(four(s, 0)),
            section: SectionIndex(four(s, 4)),
            name: extent(s, 8),
            address: eight(s, 16),
            size: eight(s, 24),
            kind: s[32],
            definition: s[33],
            // Behind kind and definition.
            reserved: eight(s, 32) / 65536,
        }
    }
}

impl Record<16> for RelocationRecord {
    ghost read = { relocation_record };

    fn from_bytes(s: &[u8]) -> Self {
        RelocationRecord {
            offset: eight(s, 0),
            symbol: SymbolIndex(four(s, 8)),
            size: s[12],
            // Behind the size.
            reserved: four(s, 12) / 256,
        }
    }
}

// Where the tables begin, and where the stream ends.
pub fn symbols_at(h: Head) -> usize
    ensures { (result ≡ symbols_at h) × (result < 2 ^ 40) }
{
    32 + 48 * h.sections as usize
}

pub fn relocations_at(h: Head) -> usize
    ensures { (result ≡ relocations_at h) × (result < 2 ^ 41) }
{
    symbols_at(h) + 40 * h.symbols as usize
}

pub fn names_at(h: Head) -> usize
    ensures { (result ≡ names_at h) × (result < 2 ^ 42) }
{
    relocations_at(h) + 16 * h.relocations as usize
}

pub fn data_at(h: Head) -> usize
    ensures { (result ≡ data_at h) × (result < 2 ^ 43) }
{
    names_at(h) + h.names as usize
}

#[tactic(auto, unfolding(model::specs::Deposit::end_of))]
pub fn end_of(h: Head) -> usize
    ensures { (result ≡ end_of h) × (result < 2 ^ 44) }
{
    data_at(h) + h.bytes as usize
}

// A deposit's bytes and its head; its records, counted from 0, before their rules are checked.
#[derive(Clone, Copy)]
pub struct Deposit<'a> {
    pub bytes: &'a [u8],
    pub head: Head,
}

impl<'a> Deposit<'a> {
    pub fn new(d: &'a [u8]) -> Self
        ensures bytes { result.bytes.now ≡ d.now }
        ensures head { result.head ≡ head_at d.now }
    {
        Deposit {
            bytes: d,
            head: head(d),
        }
    }

    #[tactic(auto, unfolding(crate::specs::Records::deposit_section))]
    pub fn section(self, i: u32) -> SectionRecord
        ensures { result ≡ deposit_section self.entry.bytes.now i }
    {
        record_at(self.bytes, 32 + 48 * i as usize)
    }

    #[tactic(auto, unfolding(crate::specs::Records::deposit_symbol))]
    pub fn symbol(self, i: u32) -> SymbolRecord
        ensures { result ≡ deposit_symbol self.entry.bytes.now self.entry.head i }
    {
        record_at(self.bytes, symbols_at(self.head) + 40 * i as usize)
    }

    #[tactic(auto, unfolding(crate::specs::Records::deposit_relocation))]
    pub fn relocation(self, i: u32) -> RelocationRecord
        ensures { result ≡ deposit_relocation self.entry.bytes.now self.entry.head i }
    {
        record_at(self.bytes, relocations_at(self.head) + 16 * i as usize)
    }
}

// ---- the view

#[tactic(auto, using(std::proofs::lemmas::Bool::Decides::nat_tests), unfolding(model::specs::Deposit::byte_order))]
fn byte_order(order: u32) -> Endianness
    ensures { result ≡ byte_order order }
{
    if order == 1 {
        Endianness::Big
    } else {
        Endianness::Little
    }
}

// The view of a deposit with this head.
#[tactic(auto, unfolding(crate::specs::View::deposit_view, model::specs::Deposit::end_of))]
pub fn deposit_view(h: Head) -> View
    requires { end_of h < 2 ^ 32 }
    ensures { result ≡ deposit_view h }
{
    View {
        form: Form::Deposit,
        order: byte_order(h.order),
        sections: h.sections,
        symbols: h.symbols,
        relocations: h.relocations,
        at: Places {
            sections: 32,
            symbols: symbols_at(h) as u32,
            relocations: relocations_at(h) as u32,
            names: names_at(h) as u32,
            bytes: data_at(h) as u32,
        },
        strings: Strings {
            sections: 0,
            symbols: 0,
        },
    }
}

impl<'a> Records<'a> {
    // The stream that the view's places count; behind each 508 bytes of it stands a gap.
    pub fn stream(self) -> Stream<'a>
        ensures bytes { result.bytes.now ≡ self.entry.bytes.now }
        ensures gap { result.gap ≡ gap_of self.entry.view }
    {
        let gap = match self.view.form {
            Form::Deposit => 4,
            Form::Elf => 0,
        };
        Stream {
            bytes: self.bytes,
            gap,
        }
    }

    // The records, read as a file's.
    fn file(self) -> FileRecords<'a>
        ensures bytes { result.bytes.now ≡ self.entry.bytes.now }
        ensures index { result.index.now ≡ self.entry.index.now }
        ensures view { result.view ≡ self.entry.view }
    {
        FileRecords {
            bytes: self.bytes,
            index: self.index,
            view: self.view,
        }
    }

    // ---- whole records

    // Section record i, counted from 0.
    #[tactic(auto, unfolding(crate::specs::View::section_at, elf_records::specs::Elf::elf_section))]
    pub fn section(self, i: u32) -> SectionRecord
        ensures { result ≡ of section_at self.entry i }
    {
        match self.view.form {
            Form::Deposit => record_at(
                self.bytes,
                self.view.at.sections as usize + 48 * i as usize,
            ),
            Form::Elf => self.file().section(i),
        }
    }

    #[tactic(auto, unfolding(crate::specs::View::symbol_at, elf_records::specs::Elf::elf_symbol))]
    pub fn symbol(self, i: u32) -> SymbolRecord
        ensures { result ≡ of symbol_at self.entry i }
    {
        match self.view.form {
            Form::Deposit => record_at(self.bytes, self.view.at.symbols as usize + 40 * i as usize),
            Form::Elf => self.file().symbol(i),
        }
    }

    #[tactic(auto, unfolding(crate::specs::View::relocation_at, elf_records::specs::Elf::elf_relocation))]
    pub fn relocation(self, i: u32) -> RelocationRecord
        ensures { result ≡ of relocation_at self.entry i }
    {
        match self.view.form {
            Form::Deposit => {
                record_at(
                    self.bytes,
                    self.view.at.relocations as usize + 16 * i as usize,
                )
            }
            Form::Elf => self.file().relocation(i),
        }
    }

    // ---- single fields

    #[tactic(auto, unfolding(crate::specs::View::section_at, elf_records::specs::Elf::elf_section))]
    pub fn section_index(self, i: u32) -> SectionIndex
        ensures { result ≡ (of section_at self.entry i).index }
    {
        match self.view.form {
            Form::Deposit => SectionIndex(deposit_stream(self.bytes).u32_at(
                self.view.at.sections as usize + 48 * i as usize,
            )),
            Form::Elf => elf_records::section_index(i),
        }
    }

    #[tactic(auto, unfolding(crate::specs::View::section_at, elf_records::specs::Elf::elf_section))]
    pub fn section_name(self, i: u32) -> Extent
        ensures { result ≡ (of section_at self.entry i).name }
    {
        match self.view.form {
            Form::Deposit => {
                record_at(
                    self.bytes,
                    self.view.at.sections as usize + 48 * i as usize + 8,
                )
            }
            Form::Elf => self.file().section_name(i),
        }
    }

    #[tactic(auto, unfolding(crate::specs::View::symbol_at, elf_records::specs::Elf::elf_symbol))]
    pub fn symbol_section(self, i: u32) -> SectionIndex
        ensures { result ≡ (of symbol_at self.entry i).section }
    {
        match self.view.form {
            Form::Deposit => SectionIndex(deposit_stream(self.bytes).u32_at(
                self.view.at.symbols as usize + 40 * i as usize + 4,
            )),
            Form::Elf => self.file().symbol_section(i),
        }
    }

    #[tactic(auto, unfolding(crate::specs::View::symbol_at, elf_records::specs::Elf::elf_symbol))]
    pub fn symbol_name(self, i: u32) -> Extent
        ensures { result ≡ (of symbol_at self.entry i).name }
    {
        match self.view.form {
            Form::Deposit => {
                record_at(
                    self.bytes,
                    self.view.at.symbols as usize + 40 * i as usize + 8,
                )
            }
            Form::Elf => self.file().symbol_name(i),
        }
    }

    #[tactic(auto, unfolding(crate::specs::View::symbol_at, elf_records::specs::Elf::elf_symbol))]
    pub fn symbol_address(self, i: u32) -> u64
        ensures { result ≡ (of symbol_at self.entry i).address }
    {
        match self.view.form {
            Form::Deposit => {
                let at = self.view.at.symbols as usize + 40 * i as usize + 16;
                deposit_stream(self.bytes).u64_at(at)
            }
            Form::Elf => self.file().symbol_address(i),
        }
    }

    #[tactic(auto, unfolding(crate::specs::View::relocation_at, elf_records::specs::Elf::elf_relocation))]
    pub fn relocation_offset(self, i: u32) -> u64
        ensures { result ≡ (of relocation_at self.entry i).offset }
    {
        match self.view.form {
            Form::Deposit => {
                let at = self.view.at.relocations as usize + 16 * i as usize;
                deposit_stream(self.bytes).u64_at(at)
            }
            Form::Elf => self.file().relocation_offset(i),
        }
    }

    #[tactic(auto, unfolding(crate::specs::View::relocation_at, elf_records::specs::Elf::elf_relocation))]
    pub fn relocation_symbol(self, i: u32) -> SymbolIndex
        ensures { result ≡ (of relocation_at self.entry i).symbol }
    {
        match self.view.form {
            Form::Deposit => SymbolIndex(deposit_stream(self.bytes).u32_at(
                self.view.at.relocations as usize + 16 * i as usize + 8,
            )),
            Form::Elf => self.file().relocation_symbol(i),
        }
    }

    // ---- names and data

    // The name that a record's range stands for.
    pub fn name(self, e: Extent) -> Span<'a>
        ensures bytes { bytes_of result ≡ name_in self.entry.bytes.now self.entry.view e }
        ensures lent { result.stream.bytes.now ≡ self.entry.bytes.now }
        ensures gap { result.stream.gap ≡ gap_of self.entry.view }
        ensures len { result.len ≡ e.length }
        ensures at { result.at ≡ self.entry.view.at.names + e.at }
    {
        self.stream().span(
            self.view.at.names as usize + e.at as usize,
            e.length as usize,
        )
    }

    // The data that a record's range stands for.
    pub fn data(self, e: Extent) -> Span<'a>
        ensures bytes { bytes_of result ≡ data_in self.entry.bytes.now self.entry.view e }
        ensures lent { result.stream.bytes.now ≡ self.entry.bytes.now }
        ensures gap { result.stream.gap ≡ gap_of self.entry.view }
        ensures len { result.len ≡ e.length }
        ensures at { result.at ≡ self.entry.view.at.bytes + e.at }
    {
        self.stream().span(
            self.view.at.bytes as usize + e.at as usize,
            e.length as usize,
        )
    }

    // ---- maps

    // The source of the map that has number n.
    #[tactic(auto, using(std::proofs::lemmas::Bool::Decides::nat_tests), unfolding(crate::specs::Maps::map_source_of))]
    pub fn map_source(self, n: u32) -> MapSource
        ensures { result ≡ map_source_of self.entry.view.sections n }
    {
        if n < self.view.sections {
            MapSource::Section(n)
        } else {
            MapSource::Symbol(n - self.view.sections)
        }
    }

    // The range of the name of map number n.
    #[tactic(auto, unfolding(crate::specs::Maps::map_name_at))]
    pub fn map_name(self, n: u32) -> Extent
        ensures { result ≡ of map_name_at self.entry n }
    {
        match self.map_source(n) {
            MapSource::Section(i) => self.section_name(i),
            MapSource::Symbol(j) => self.symbol_name(j),
        }
    }
}

// ---- maps

// What a map is made from: a section or a symbol, by record number.
#[derive(Clone, Copy)]
pub enum MapSource {
    Section(u32),
    Symbol(u32),
}

// The number of the map that is made from a source, in an object with so many sections.
pub fn map_number(sections: u32, source: MapSource) -> u32
    requires { map_number_of sections source < 2 ^ 32 }
    ensures { result ≡ map_number_of sections source }
{
    match source {
        MapSource::Section(i) => i,
        MapSource::Symbol(j) => sections + j,
    }
}

// A walk over the record numbers of a table, up to `end`.
#[derive(Clone, Copy)]
pub struct Cursor {
    pub at: u32,
    pub end: u32,
}

impl Cursor {
    // Over all of a table.
    pub fn new(end: u32) -> Self
        ensures { result ≡ cursor 0 end }
    {
        Cursor { at: 0, end }
    }

    // The next number, with the cursor moved past it.
    #[tactic(auto, using(std::proofs::lemmas::Bool::Decides::nat_tests), unfolding(crate::specs::Records::step_of))]
    pub fn next(self) -> Option<(u32, Cursor)>
        ensures { result ≡ step_of self }
    {
        if self.at < self.end {
            let next = Cursor {
                at: self.at + 1,
                ..self
            };
            Some((self.at, next))
        } else {
            None
        }
    }
}

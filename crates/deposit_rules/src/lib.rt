// Number 2, the rules of a deposit's stream, and number 3: each record and each name that one refers to is looked at once.
#![tactic(auto)]

ghost use Rattle.std.specs.Prelude.{◌≡◌, ◌+◌, ◌*◌, ◌/◌, ◌^◌, ◌<◌, ◌≤◌, length};
ghost use Rattle.model.specs.Deposit.{end_of, all, all_zero, head_ok, within, relocation_ok};
ghost use Rattle.stream.specs.Stream.{place as place_of};
ghost use Rattle.stream.specs.Spans.{bytes_of};
ghost use Rattle.deposit_rules.specs.Rules.{name_byte, names_ok, name_ok_at, section_ok_at, symbol_ok_at, is_btf, symbols_ok, relocations_ok, rest_ok};
ghost use Rattle.deposit_rules.specs.Checked.{checked_sections};

pub mod tables;

use model::{Extent, Head, RelocationRecord, SectionRecord, SymbolRecord};
use names::same;
use records::{Deposit, deposit_stream, end_of, names_at};
use stream::Span;
pub use tables::Tables;

fn inside(e: Extent, count: u32) -> bool
    ensures { result ≡ within e count }
{
    u64::from(e.at) + u64::from(e.length) <= u64::from(count)
}

// Whether each byte is 1 to 127: their least and their greatest are.
#[tactic(auto, using(std::proofs::lemmas::Bool::Decides::nat_tests))]
fn name_piece(b: &[u8]) -> bool
    ensures { result ≡ all name_byte b.now }
{
    let mut low: u8 = 1;
    let mut high: u8 = 1;
    for x in b {
        low = low.min(*x);
        high = high.max(*x);
    }
    low >= 1 && high <= 127
}

// Whether each byte of a name is 1 to 127: block by block, where they lie.
fn name_bytes(name: Span) -> bool
    requires { (name.at + name.len < 2 ^ 62) × (place_of name.stream.gap (name.at + name.len) ≤ length name.stream.bytes.now) }
    ensures { result ≡ all name_byte (bytes_of name.entry) }
{
    let mut run = name.stream.run(name.at);
    let mut left = name.len;
    // A step is as wide as the block that it is in allows.
    while left > 0 {
        let width = left.min(run.room);
        if !name_piece(&name.stream.bytes[run.at..run.at + width]) {
            return false;
        }
        run = name.stream.skip(run, width);
        left -= width;
    }
    true
}

// Whether each byte of the table of names may stand in a name.
pub fn names_ok(deposit: Deposit) -> bool
    requires { place_of 4 (end_of deposit.head) ≤ length deposit.bytes.now }
    ensures { result ≡ names_ok deposit.entry.bytes.now deposit.entry.head }
{
    let h = deposit.head;
    name_bytes(deposit_stream(deposit.bytes).span(names_at(h), h.names as usize))
}

#[tactic(auto, using(std::proofs::lemmas::Bool::Decides::nat_tests), unfolding(model::specs::Deposit::relocation_ok))]
fn relocation_ok(s: RelocationRecord) -> bool
    ensures { result ≡ relocation_ok s }
{
    s.symbol.0 != 0 && s.reserved == 0
}

#[tactic(auto, using(std::proofs::lemmas::Bool::Decides::nat_tests), unfolding(model::specs::Deposit::head_ok))]
pub fn head_ok(h: Head) -> bool
    ensures { result ≡ head_ok h }
{
    h.order <= 1
        && h.sections <= 4096
        && h.symbols <= 65536
        && h.relocations <= 65536
        && h.reserved == 0
}

fn is_btf(deposit: Deposit, s: SectionRecord) -> bool
    ensures { result ≡ is_btf deposit.entry.bytes.now deposit.entry.head s }
{
    let at = names_at(deposit.head) + s.name.at as usize;
    same(
        deposit_stream(deposit.bytes).span(at, s.name.length as usize),
        b".BTF",
    )
}

fn zeros(b: &[u8]) -> bool
    ensures { result ≡ all_zero b.now }
{
    b.iter().all(|x| *x == 0)
}

// The stream ends in its last block: what is left of that block.
pub fn rest_ok(deposit: Deposit) -> bool
    requires { (end_of deposit.head ≤ length deposit.bytes.now / 512 * 508)
        × (length deposit.bytes.now / 512 * 508 < end_of deposit.head + 508) }
    ensures { result ≡ rest_ok deposit.entry.bytes.now deposit.entry.head }
{
    let d = deposit.bytes;
    let end = end_of(deposit.head);
    let i = deposit_stream(d).place(end);
    let e = i + (d.len() / 512 * 508 - end);
    zeros(&d[i..e])
}

#[tactic(auto, unfolding(crate::specs::Rules::relocations_ok))]
pub fn relocations_ok(deposit: Deposit) -> bool
    ensures { result ≡ relocations_ok deposit.entry.bytes.now deposit.entry.head }
{
    for i in 0..deposit.head.relocations {
        if !relocation_ok(deposit.relocation(i)) {
            return false;
        }
    }
    true
}

// Why a section record is refused: a rule is broken (2), or it is named `.BTF` (3).
#[derive(Clone, Copy)]
pub enum RecordFault {
    Broken,
    Btf,
}

impl<'a> Tables<'a> {
    pub fn new(deposit: Deposit<'a>) -> Self
        requires { place_of 4 (end_of deposit.head) ≤ length deposit.bytes.now }
        ensures { result.deposit ≡ deposit.entry }
    {
        Tables {
            deposit,
            clean: names_ok(deposit),
        }
    }

    #[tactic(auto, using(std::proofs::lemmas::Bool::Decides::nat_tests), unfolding(crate::specs::Rules::name_ok_at))]
    fn name_ok(self, e: Extent) -> bool
        ensures { result ≡ name_ok_at self.entry.deposit.bytes.now self.entry.deposit.head e }
    {
        let h = self.deposit.head;
        if e.length > 65535 || !inside(e, h.names) {
            return false;
        }
        let stream = deposit_stream(self.deposit.bytes);
        self.clean || name_bytes(stream.span(names_at(h) + e.at as usize, e.length as usize))
    }

    #[tactic(auto, using(std::proofs::lemmas::Bool::Decides::nat_tests), unfolding(crate::specs::Rules::section_ok_at))]
    fn section_ok(self, s: SectionRecord) -> bool
        ensures { result ≡ section_ok_at self.entry.deposit.bytes.now self.entry.deposit.head s }
    {
        s.mark <= 1
            && self.name_ok(s.name)
            && s.size <= 16777216
            && inside(s.bytes, self.deposit.head.bytes)
            && inside(s.relocations, self.deposit.head.relocations)
    }

    #[tactic(auto, using(std::proofs::lemmas::Bool::Decides::nat_tests), unfolding(crate::specs::Rules::symbol_ok_at))]
    fn symbol_ok(self, s: SymbolRecord) -> bool
        ensures { result ≡ symbol_ok_at self.entry.deposit.bytes.now self.entry.deposit.head s }
    {
        s.section.0 != 0
            && self.name_ok(s.name)
            && s.kind <= 2
            && s.definition <= 1
            && s.reserved == 0
    }

    #[tactic(auto, unfolding(crate::specs::Rules::symbols_ok))]
    pub fn symbols_ok(self) -> bool
        ensures { result ≡ symbols_ok self.entry.deposit.bytes.now self.entry.deposit.head }
    {
        let mut last = 0;
        for i in 0..self.deposit.head.symbols {
            let s = self.deposit.symbol(i);
            if s.index.0 <= last || !self.symbol_ok(s) {
                return false;
            }
            last = s.index.0;
        }
        true
    }

    #[tactic(auto, unfolding(crate::specs::Rules::sections_ok, crate::specs::Rules::some_btf, crate::specs::Checked::checked_sections))]
    pub fn check_sections(self) -> Result<(), RecordFault>
        ensures { result ≡ checked_sections self.entry.deposit.bytes.now self.entry.deposit.head }
    {
        let mut last = 0;
        let mut btf = false;
        for i in 0..self.deposit.head.sections {
            let s = self.deposit.section(i);
            if s.index.0 <= last || !self.section_ok(s) {
                return Err(RecordFault::Broken);
            }
            btf |= is_btf(self.deposit, s);
            last = s.index.0;
        }
        if btf { Err(RecordFault::Btf) } else { Ok(()) }
    }
}

// What an object's records stand for: the kind of a section, which symbols are programs or defined text, and where code begins.
#![tactic(auto)]

ghost use Rattle.std.specs.Prelude.{◌≡◌, Err};
ghost use Rattle.model.specs.Refusals.{no_symbol};
ghost use Rattle.model.specs.SectionKind.{kind_of};
ghost use Rattle.records.specs.Of.{of};
ghost use Rattle.object.specs.Offset.{record_offset, code_offset};
ghost use Rattle.object.specs.View.{section_from, named_text, defined_record};

use model::{EbpfSectionKind, Refusal, SectionRecord, SymbolIndex, SymbolRecord};
use records::Records;

// The refusal names the section and no symbol.
pub fn of_section(number: u32, s: SectionRecord) -> Result<(), Refusal>
    ensures { result ≡ Err (record { number = number; section = s.index; symbol = no_symbol; entry = 0 }) }
{
    Err(Refusal {
        number,
        section: s.index,
        symbol: SymbolIndex(0),
        entry: 0,
    })
}

// The refusal names the section and the symbol.
pub fn of_symbol(number: u32, s: SectionRecord, y: SymbolRecord) -> Result<(), Refusal>
    ensures { result ≡ Err (record { number = number; section = s.index; symbol = y.index; entry = 0 }) }
{
    Err(Refusal {
        number,
        section: s.index,
        symbol: y.index,
        entry: 0,
    })
}

#[tactic(auto, unfolding(model::specs::SectionKind::kind_of, crate::specs::View::section_from))]
pub fn kind_of(records: Records, s: SectionRecord) -> EbpfSectionKind
    ensures { result ≡ kind_of (of section_from records.entry s) }
{
    let kind = section_kind::from_name(records.name(s.name));
    section_kind::or_program(kind, s.mark == 1, s.size)
}

// A program is a text symbol with a name.
pub fn is_program(y: SymbolRecord) -> bool
    ensures { result ≡ named_text y }
{
    y.kind == 1 && y.name.length > 0
}

pub fn is_defined_text(y: SymbolRecord) -> bool
    ensures { result ≡ defined_record y }
{
    y.kind == 1 && y.definition == 1
}

// Where a program's bytes begin in the data of its section.
pub fn program_offset(s: SectionRecord, y: SymbolRecord) -> u64
    ensures { result ≡ record_offset s y }
{
    y.address
}

// Where a function's code begins in the data of its section: text's at its address past that of the section.
#[tactic(auto, unfolding(crate::specs::Offset::code_offset))]
pub fn code_offset(records: Records, s: SectionRecord, y: SymbolRecord) -> u64
    ensures { result ≡ of code_offset records.entry s y }
{
    if section_kind::is_program(kind_of(records, s)) {
        program_offset(s, y)
    } else {
        y.address.saturating_sub(s.address)
    }
}

// The tables of record numbers of an object, and the call that makes them or says why the object is refused.
#![tactic(auto)]

ghost use Rattle.std.specs.Prelude.{◌≡◌, ◌+◌, ◌≤◌, length};
ghost use Rattle.model.specs.Refusals.{object_refusal};
ghost use Rattle.records.specs.Of.{of};
ghost use Rattle.object.specs.View.{object_in};
ghost use Rattle.parse_sections.specs.Pass.{AllListed};
ghost use Rattle.parse_tables.specs.Parsed.{counts_of, TablesHeld, Parsed};

use model::Refusal;
use parse_sections::Counts;
use record_keys::By;
use records::{Object, Records};

// The four tables, made of what the sections list for each: its first n.
fn number_tables(
    records: Records,
    sections: &mut [u32],
    programs: &mut [u32],
    functions: &mut [u32],
    maps: &mut [u32],
    tmp: &mut [u32],
    n: Counts,
) -> Counts
    requires { of AllListed records (object_refusal (of object_in records)) n sections.old programs.old functions.old maps.old
        × (records.view.sections + records.view.symbols ≤ length tmp.old) }
    ensures { (result ≡ of counts_of records.entry)
        × of TablesHeld records.entry sections.new programs.new functions.new maps.new }
{
    Counts {
        sections: record_sort::table(records, By::SectionName, &mut sections[..n.sections], tmp),
        programs: record_sort::table(records, By::SymbolName, &mut programs[..n.programs], tmp),
        functions: record_sort::table(
            records,
            By::SymbolAddress,
            &mut functions[..n.functions],
            tmp,
        ),
        maps: record_sort::table(records, By::MapName, &mut maps[..n.maps], tmp),
        ..n
    }
}

// Numbers 4 to 17, or the record numbers of each table; symbols and next are worked in.
pub fn parse(
    object: Object,
    sections: &mut [u32],
    programs: &mut [u32],
    functions: &mut [u32],
    maps: &mut [u32],
    symbols: &mut [u32],
    next: &mut [u32],
) -> Result<Counts, Refusal>
    requires { (object.records.view.sections ≤ length sections.old)
        × (object.records.view.symbols ≤ length programs.old)
        × (object.records.view.symbols ≤ length functions.old)
        × (object.records.view.sections + object.records.view.symbols ≤ length maps.old)
        × (object.records.view.sections + object.records.view.symbols ≤ length symbols.old)
        × (object.records.view.relocations ≤ length next.old) }
    ensures { of Parsed object.entry.records result sections.new programs.new functions.new maps.new }
{
    let y = object.records.view.symbols as usize;
    let n = parse_sections::parse_object(
        object,
        next,
        &mut symbols[..y],
        sections,
        programs,
        functions,
        maps,
    )?;
    let counts = number_tables(
        object.records,
        sections,
        programs,
        functions,
        maps,
        symbols,
        n,
    );
    Ok(counts)
}

// Numbers 4 to 17 of an object, and the record numbers that its sections list for each table, by one pass over them.
#![tactic(auto)]

ghost use Rattle.std.specs.Prelude.{◌≡◌, ◌++◌, ℕ, ◌+◌, ◌^◌, ◌<◌, ◌≤◌, length, get_or, drop};
ghost use Rattle.model.specs.declared.EbpfSectionKind.{EbpfSectionKind as Kind};
ghost use Rattle.model.specs.Contents.{version_of};
ghost use Rattle.model.specs.Refusals.{program_refusal, text_refusal, kind_refusal, section_refusal, object_refusal};
ghost use Rattle.model.specs.SectionKind.{is_kind, kind_of};
ghost use Rattle.records.specs.Of.{of};
ghost use Rattle.orders.specs.Sort.{by_key, sorted};
ghost use Rattle.catalogue_laws.specs.Numbers.{up_to};
ghost use Rattle.catalogue_laws.specs.SortedGroups.{by_section};
ghost use Rattle.record_keys.specs.declared.By.{By};
ghost use Rattle.record_keys.specs.Keys.{key_of};
ghost use Rattle.object.specs.Group.{members_in, programs_among};
ghost use Rattle.object.specs.View.{section_from, symbol_in, object_in};
ghost use Rattle.parse_first.specs.LicenceVersion.{license_at};
ghost use Rattle.parse_first.specs.Targets.{NextOf};
ghost use Rattle.parse_sections.specs.Grouped.{SymbolsPassed, GroupOf};
ghost use Rattle.parse_sections.specs.Answers.{Answers, walked_in, functions_by};
ghost use Rattle.parse_sections.specs.Lists.{sections_of, program_numbers_of, map_numbers_of, RoomFor, Lists};
ghost use Rattle.parse_sections.specs.Pass.{ListedOrRefused, sections_refused};

use model::{EbpfSectionKind, Extent, Refusal, SectionRecord};
use object_view::is_no_section;
use record_keys::By;
use records::{MapSource, Object, Records, map_number};

// How many record numbers there are for each table; where the licence stands, and the version.
#[derive(Clone, Copy)]
pub struct Counts {
    pub sections: usize,
    pub programs: usize,
    pub functions: usize,
    pub maps: usize,
    pub license: Option<Extent>,
    pub version: Option<u32>,
}

// Where a section's symbols lie among all symbols sorted by section.
#[derive(Clone, Copy)]
struct Group {
    lo: usize,
    hi: usize,
}

// The group of a section; those of the sections before it end at `from`.
fn group_of(records: Records, s: SectionRecord, symbols: &[u32], from: usize) -> Group
    requires { (from ≤ length symbols.now) × (symbols.now ≡ sorted (by_section (of symbol_in records)) (up_to records.view.symbols))
        × of SymbolsPassed records symbols.now from s.index.0 }
    ensures { of GroupOf records.entry s symbols.now from result.lo result.hi }
{
    let k = s.index;
    let lo = from + symbol_groups::group_start(records, &symbols[from..], k);
    if is_no_section(k) {
        return Group { lo, hi: lo };
    }
    let hi = lo + symbol_groups::group_end(records, &symbols[lo..], k);
    Group { lo, hi }
}

fn parse_programs(
    records: Records,
    s: SectionRecord,
    group: &[u32],
    functions: &mut [u32],
) -> Result<usize, Refusal>
    requires { (length group.now ≤ length functions.old) × (group.now ≡ of members_in records s) }
    ensures { Answers (program_refusal (of object_in records.entry) (of section_from records.entry s))
        (of programs_among records.entry (of members_in records.entry s)) functions.old result
        functions.new }
{
    parse_programs::program_refusal(records, s, group)?;
    Ok(parse_programs::program_numbers(records, group, functions))
}

// A copy of a group, sorted by address.
fn by_address(records: Records, group: &[u32], order: &mut [u32], tmp: &mut [u32])
    requires { (length order.old ≡ length group.now) × (length tmp.old ≡ length group.now) }
    ensures { order.new ≡ sorted (by_key (of (key_of By.SymbolAddress) records.entry)) group.now }
{
    lists::copy(order, group);
    record_sort::sort(records, By::SymbolAddress, order, tmp);
}

fn parse_text_section(
    records: Records,
    s: SectionRecord,
    group: &[u32],
    order: &mut [u32],
    tmp: &mut [u32],
    functions: &mut [u32],
) -> Result<usize, Refusal>
    requires { (length group.now ≤ length functions.old) × (group.now ≡ of members_in records s)
        × (length order.old ≡ length group.now) × (length tmp.old ≡ length group.now) }
    ensures { Answers (text_refusal (of object_in records.entry) (of section_from records.entry s))
        (of walked_in records.entry s) functions.old result functions.new }
{
    by_address(records, group, order, tmp);
    parse_text::parse_text_section(records, s, order, functions)
}

// What a section of its kind is refused for; its functions at the front of `functions`, and how many they are. Its group is sorted in order and tmp.
fn parse_kind(
    records: Records,
    s: SectionRecord,
    kind: EbpfSectionKind,
    group: &[u32],
    order: &mut [u32],
    tmp: &mut [u32],
    functions: &mut [u32],
) -> Result<usize, Refusal>
    requires { (length group.now ≤ length functions.old) × (group.now ≡ of members_in records s)
        × (length order.old ≡ length group.now) × (length tmp.old ≡ length group.now) × (kind ≡ kind_of (of section_from records s)) }
    ensures { Answers (kind_refusal (of object_in records.entry) (of section_from records.entry s))
        (of functions_by records.entry s) functions.old result functions.new }
{
    match kind {
        EbpfSectionKind::Program => parse_programs(records, s, group, functions),
        EbpfSectionKind::Maps => {
            parse_maps::parse_maps_section(records, s, group)?;
            Ok(0)
        }
        EbpfSectionKind::Text => parse_text_section(records, s, group, order, tmp, functions),
        EbpfSectionKind::BtfMaps => object::of_section(17, s).map(|()| 0),
        _ => Ok(0),
    }
}

fn is_btf_ext(kind: EbpfSectionKind) -> bool
    ensures { result ≡ is_kind Kind.BtfExt kind }
{
    matches!(kind, EbpfSectionKind::BtfExt)
}

fn parse_section(
    records: Records,
    s: SectionRecord,
    kind: EbpfSectionKind,
    next: &[u32],
    group: &[u32],
    order: &mut [u32],
    tmp: &mut [u32],
    functions: &mut [u32],
) -> Result<usize, Refusal>
    requires { (length group.now ≤ length functions.old) × (group.now ≡ of members_in records s)
        × (length order.old ≡ length group.now) × (length tmp.old ≡ length group.now) × (kind ≡ kind_of (of section_from records s))
        × of NextOf records next.now × (s.relocations.at + s.relocations.length ≤ records.view.relocations) }
    ensures { Answers (section_refusal (of object_in records.entry) (of section_from records.entry s))
        (of functions_by records.entry s) functions.old result functions.new }
{
    if is_btf_ext(kind) {
        return Ok(0);
    }
    if parse_first::untargeted(s, next) {
        return object::of_section(4, s).map(|()| 0);
    }
    parse_kind(records, s, kind, group, order, tmp, functions)
}

// A section's own number at the front of out, unless it is `.BTF.ext`; how many there are.
#[tactic(auto, unfolding(crate::specs::Lists::sections_of))]
fn list_section(kind: EbpfSectionKind, i: u32, out: &mut [u32]) -> usize
    requires { 0 < length out.old }
    ensures { (result ≡ length (sections_of kind i)) × (out.new ≡ sections_of kind i ++ drop result out.old) }
{
    if is_btf_ext(kind) {
        return 0;
    }
    out[0] = i;
    1
}

// A section's programs at the front of out; how many there are. They are its functions.
#[tactic(auto, unfolding(crate::specs::Lists::program_numbers_of))]
fn list_programs(kind: EbpfSectionKind, functions: &[u32], out: &mut [u32]) -> usize
    requires { length functions.now ≤ length out.old }
    ensures { (result ≡ length (program_numbers_of kind functions.now))
        × (out.new ≡ program_numbers_of kind functions.now ++ drop result out.old) }
{
    match kind {
        EbpfSectionKind::Program => {
            lists::copy(out, functions);
            functions.len()
        }
        _ => 0,
    }
}

// The numbers of a section's maps at the front of out; how many there are. The group is that of its symbols.
fn list_maps(sections: u32, kind: EbpfSectionKind, i: u32, group: &[u32], out: &mut [u32]) -> usize
    requires { (length group.now < length out.old)
        × ((k : ℕ) → k < length group.now → sections + get_or group.now k 0 < 2 ^ 32) }
    ensures { (result ≡ length (map_numbers_of sections kind i group.now))
        × (out.new ≡ map_numbers_of sections kind i group.now ++ drop result out.old) }
{
    match kind {
        EbpfSectionKind::Maps => parse_maps::map_numbers(sections, group, out),
        EbpfSectionKind::Bss | EbpfSectionKind::Data | EbpfSectionKind::Rodata => {
            out[0] = map_number(sections, MapSource::Section(i));
            1
        }
        _ => 0,
    }
}

// Appends what a section lists besides its functions; n numbers stand in each list.
fn list_others(
    count: u32,
    kind: EbpfSectionKind,
    i: u32,
    group: &[u32],
    sections: &mut [u32],
    programs: &mut [u32],
    functions: &[u32],
    maps: &mut [u32],
    n: Counts,
) -> Counts
    requires { RoomFor count group.now sections.old programs.old functions.now maps.old n }
    ensures { Lists count kind i group.now functions.now n result sections.old
        programs.old maps.old sections.new programs.new maps.new }
{
    Counts {
        sections: n.sections + list_section(kind, i, &mut sections[n.sections..]),
        programs: n.programs + list_programs(kind, functions, &mut programs[n.programs..]),
        functions: n.functions + functions.len(),
        maps: n.maps + list_maps(count, kind, i, group, &mut maps[n.maps..]),
        ..n
    }
}

// The sections by index; what each lists is appended. No more is listed than was passed, so a group is sorted past that, in programs and maps.
fn parse_sections(
    object: Object,
    next: &[u32],
    symbols: &[u32],
    sections: &mut [u32],
    programs: &mut [u32],
    functions: &mut [u32],
    maps: &mut [u32],
    license: Option<Extent>,
    version: Option<u32>,
) -> Result<Counts, Refusal>
    requires { of NextOf object.records next.now
        × (symbols.now ≡ sorted (by_section (of symbol_in object.records)) (up_to object.records.view.symbols))
        × (object.records.view.sections ≤ length sections.old)
        × (object.records.view.symbols ≤ length programs.old)
        × (object.records.view.symbols ≤ length functions.old)
        × (object.records.view.sections + object.records.view.symbols ≤ length maps.old)
        × (license ≡ of license_at object.records)
        × (version ≡ version_of (of object_in object.records)) }
    ensures { of ListedOrRefused object.entry.records (of sections_refused object.entry.records) result sections.new
        programs.new functions.new maps.new }
{
    let count = object.records.view.sections as usize;
    let mut from = 0;
    let mut n = Counts {
        sections: 0,
        programs: 0,
        functions: 0,
        maps: 0,
        license,
        version,
    };
    for i in 0..object.records.view.sections {
        let s = object.records.section(i);
        let kind = object::kind_of(object.records, s);
        let Group { lo, hi } = group_of(object.records, s, symbols, from);
        let group = &symbols[lo..hi];
        let found = parse_section(
            object.records,
            s,
            kind,
            next,
            group,
            &mut programs[lo..hi],
            &mut maps[count + lo..count + hi],
            &mut functions[n.functions..hi],
        )?;
        let end = n.functions + found;
        n = list_others(
            object.records.view.sections,
            kind,
            i,
            group,
            sections,
            programs,
            &functions[n.functions..end],
            maps,
            n,
        );
        from = hi;
    }
    Ok(n)
}

// Numbers 4 to 17; the numbers that the sections list for each table, in their order. next and symbols are worked in.
pub fn parse_object(
    object: Object,
    next: &mut [u32],
    symbols: &mut [u32],
    sections: &mut [u32],
    programs: &mut [u32],
    functions: &mut [u32],
    maps: &mut [u32],
) -> Result<Counts, Refusal>
    requires { (object.records.view.relocations ≤ length next.old)
        × (length symbols.old ≡ object.records.view.symbols)
        × (object.records.view.sections ≤ length sections.old)
        × (object.records.view.symbols ≤ length programs.old)
        × (object.records.view.symbols ≤ length functions.old)
        × (object.records.view.sections + object.records.view.symbols ≤ length maps.old) }
    ensures { of ListedOrRefused object.entry.records (object_refusal (of object_in object.entry.records)) result sections.new
        programs.new functions.new maps.new }
{
    parse_first::next_untargeted(object.records, next);
    let y = object.records.view.symbols as usize;
    symbol_groups::by_section(object.records, symbols, &mut programs[..y]);
    let named = parse_first::find_named(object.records);
    parse_first::license_refusal(object, named.license, next)?;
    parse_first::version_refusal(object, named.version, next)?;
    let license = parse_first::license_of(object.records, named.license);
    let version = parse_first::version_of(object.records, named.version);
    parse_sections(
        object, next, symbols, sections, programs, functions, maps, license, version,
    )
}

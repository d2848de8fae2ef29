// A patch list as it is lent, and what refuses it: numbers 18 to 23.
#![tactic(auto)]

ghost use Rattle.std.specs.Prelude.{◌≡◌, not, ◌^◌, ◌+◌, ◌<◌, ◌≤◌, eqb, length, get_or, Err};
ghost use Rattle.model.specs.Bytes.{inside, or_else, part};
ghost use Rattle.model.specs.Refusals.{no_section, no_symbol, of_entry, place_refusal, entry_refusal, patch_refusal};
ghost use Rattle.records.specs.Of.{of};
ghost use Rattle.object.specs.Checked.{checked_of};
ghost use Rattle.object.specs.View.{symbol_in, symbol_from, object_in};
ghost use Rattle.patch_symbols.specs.Search.{Searchable};
ghost use Rattle.patch_checks.specs.Entries.{NamesFound, entry_count, patch_entry_at, longer as longer_of, longest, patch_by};
ghost use Rattle.patch_checks.specs.Lists.{patches_in};
ghost use Rattle.patch_checks.specs.Checks.{past, maps_of_numbers, Sited};

use bytes_maps::own_length;
use model::{Range, Refusal, SectionIndex, SymbolIndex, SymbolRecord};
use patch_maps::place_of;
use patch_symbols::{Bearer, bearer_of};
use records::Object;

// A patch list as it is lent: five numbers an entry, and the bytes that their ranges lie in.
#[derive(Clone, Copy)]
pub struct PatchList<'a> {
    pub entries: &'a [u64],
    pub bytes: &'a [u8],
}

// Five numbers of the list: whether all are lent, the name, the data and the must-exist mark.
// A short last entry is one too, and no `None`: the numbers that it lacks are 0, number 18 refuses it, and `longest_name` counts its name.
#[derive(Clone, Copy)]
pub struct Entry {
    pub whole: bool,
    pub name: Range,
    pub bytes: Range,
    pub mark: u64,
}

// Number i of the list, 0 past the end.
fn number(entries: &[u64], i: usize) -> u64
    ensures { result ≡ get_or entries.now i 0 }
{
    entries.get(i).copied().unwrap_or(0)
}

// Entry e, counted from 0.
#[tactic(auto, unfolding(crate::specs::Entries::patch_entry_at))]
pub fn entry_at(entries: &[u64], e: usize) -> Entry
    requires { e < 2 ^ 60 }
    ensures { result ≡ patch_entry_at entries.now e }
{
    let p = 5 * e;
    Entry {
        whole: p + 5 <= entries.len(),
        name: Range {
            at: number(entries, p),
            length: number(entries, p + 1),
        },
        bytes: Range {
            at: number(entries, p + 2),
            length: number(entries, p + 3),
        },
        mark: number(entries, p + 4),
    }
}

// The longer of a name so far and one of n bytes, unless it is longer than any name of a symbol.
#[tactic(auto, unfolding(crate::specs::Entries::longer))]
fn longer(so_far: u32, n: u64) -> u32
    ensures { result ≡ longer_of so_far n }
{
    if n > 65535 {
        so_far
    } else {
        so_far.max(n as u32)
    }
}

// How many bytes the longest name of the list has that a symbol may bear.
#[tactic(auto, unfolding(crate::specs::Entries::longest))]
pub fn longest_name(entries: &[u64]) -> u32
    ensures { result ≡ longest entries.now (entry_count entries.now) }
{
    let mut bytes: u32 = 0;
    for e in 0..entries.len().div_ceil(5) {
        bytes = longer(bytes, entry_at(entries, e).name.length);
    }
    bytes
}

// The bytes of a range that lies inside.
pub fn part(bytes: &[u8], r: Range) -> &[u8]
    requires { r.at + r.length ≤ length bytes.now }
    ensures { result.now ≡ part bytes.now r.at r.length }
{
    let at = r.at as usize;
    &bytes[at..at + r.length as usize]
}

// Whether a range lies inside a buffer of n bytes.
fn lies_inside(r: Range, n: u64) -> bool
    ensures { result ≡ inside r.at r.length n }
{
    r.at <= n && r.length <= n - r.at
}

#[tactic(auto, unfolding(crate::specs::Entries::patch_by))]
fn is_lent(x: Entry, patches: &[u8]) -> bool
    ensures { result ≡ (patch_by patches.now x).inside }
{
    let n = patches.len() as u64;
    x.whole && lies_inside(x.name, n) && lies_inside(x.bytes, n)
}

// Whether a symbol's address plus size passes n bytes or 2^64 - 1. No sum is made.
fn passes(n: usize, at: u64, size: u64) -> bool
    ensures { result ≡ past n at size }
{
    let m = n as u64;
    at > m || m - at < size
}

// Refused, with the entry named.
fn of_entry(number: u32, entry: u64) -> Result<(), Refusal>
    ensures { result ≡ Err (record { number = number; section = no_section; symbol = no_symbol; entry = entry }) }
{
    Err(Refusal {
        number,
        section: SectionIndex(0),
        symbol: SymbolIndex(0),
        entry,
    })
}

// Numbers 22 and 23.
fn place_refusal(
    object: Object,
    maps: &[u32],
    by: &[u32],
    y: SymbolRecord,
    e: u64,
) -> Result<(), Refusal>
    requires { of Sited object.records maps.now by.now }
    ensures { result
        ≡ checked_of
        (place_refusal (of maps_of_numbers object.entry.records maps.now) e (of symbol_from object.entry.records y)) }
{
    let Some(place) = place_of(object, by, y) else {
        return of_entry(22, e);
    };
    let own = own_length(object.records, maps[place]);
    if passes(own, y.address, y.size) {
        return of_entry(23, e);
    }
    Ok(())
}

// Numbers 21 to 23, for data of so many bytes.
#[tactic(auto, using(std::proofs::lemmas::Bool::Decides::nat_tests), unfolding(object::specs::View::symbol_from))]
fn symbol_refusal(
    object: Object,
    maps: &[u32],
    by: &[u32],
    j: u32,
    length: u64,
    e: u64,
) -> Result<(), Refusal>
    requires { of Sited object.records maps.now by.now }
    ensures { result
        ≡ checked_of
        (or_else (of_entry 21 e (not (eqb length (of symbol_in object.entry.records j).size)))
        (place_refusal (of maps_of_numbers object.entry.records maps.now) e (of symbol_in object.entry.records j))) }
{
    let y = object.records.symbol(j);
    if length != y.size {
        return of_entry(21, e);
    }
    place_refusal(object, maps, by, y, e)
}

// What refuses an entry, which is entry e counted from 1.
fn entry_refusal(
    object: Object,
    x: Entry,
    patches: &[u8],
    symbols: &[u32],
    maps: &[u32],
    by: &[u32],
    e: u64,
) -> Result<(), Refusal>
    requires { of Sited object.records maps.now by.now × of Searchable object.records symbols.now x.name.length }
    ensures { result
        ≡ checked_of
        (entry_refusal (of object_in object.entry.records) (of maps_of_numbers object.entry.records maps.now) e
        (patch_by patches.now x)) }
{
    if !is_lent(x, patches) || x.mark > 1 {
        return of_entry(18, e);
    }
    match bearer_of(object, symbols, part(patches, x.name)) {
        Bearer::Nothing if x.mark == 1 => of_entry(20, e),
        Bearer::Nothing => Ok(()),
        Bearer::One(j) => symbol_refusal(object, maps, by, j, x.bytes.length, e),
        Bearer::Several => of_entry(19, e),
    }
}

// What refuses the list: the first entry that is refused.
pub fn patch_refusal(
    object: Object,
    list: PatchList,
    symbols: &[u32],
    maps: &[u32],
    by: &[u32],
) -> Result<(), Refusal>
    requires { of Sited object.records maps.now by.now × of NamesFound object.records list.entries.now symbols.now }
    ensures { result
        ≡ checked_of
        (patch_refusal (of object_in object.entry.records) (of maps_of_numbers object.entry.records maps.now) 1
        (patches_in list.entry)) }
{
    let count = list.entries.len().div_ceil(5);
    for e in 0..count {
        let x = entry_at(list.entries, e);
        entry_refusal(object, x, list.bytes, symbols, maps, by, e as u64 + 1)?;
    }
    Ok(())
}

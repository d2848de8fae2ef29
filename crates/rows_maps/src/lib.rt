// The rows of the map table: where a map's name lies, its length, the section's index and kind,
// the symbol or 0, where its own bytes lie, how many they are, and the seven words.
#![tactic(auto)]

ghost use Rattle.std.specs.Prelude.{◌≡◌, ◌++◌, ℕ, ◌+◌, ◌*◌, ◌^◌, ◌<◌, ◌≤◌, length, get_or, drop};
ghost use Rattle.std.proofs.lemmas.List.Edits.{sets};
ghost use Rattle.records.specs.declared.MapSource.{MapSource};
ghost use Rattle.records.specs.Maps.{map_source_of};
ghost use Rattle.records.specs.Of.{of};
ghost use Rattle.catalogue_numbers.specs.Fits.{MapFits};
ghost use Rattle.catalogue_numbers.specs.Numbers.{map_at};
ghost use Rattle.rows_maps.specs.Rows.{Read, seven_words, numbers, map_rows};
ghost use Rattle.rows_maps.specs.Maps.{legacy_at, RecordWithin};

use bytes_maps::own_length;
use map_def::{parse_data_map_section, parse_map_def};
use model::{BpfMapDef, EbpfSectionKind};
use object::kind_of;
use records::{MapSource, Object};
use rows_sections::put_row;
use symbol_section::member_at;

// A row without the places of its name and of its own bytes.
#[derive(Clone, Copy)]
struct Row {
    length: usize,
    section: u64,
    kind: u64,
    symbol: u64,
    own: usize,
    def: BpfMapDef,
}

// The row of map number n, which section i is.
#[tactic(auto, using(crate::specs::Maps::data_row_of))]
fn data_row(object: Object, n: u32, i: u32) -> Row
    requires { map_source_of object.records.view.sections n ≡ MapSource.Section i }
    ensures { Read (of map_at object.entry.records n) result }
{
    let s = object.records.section(i);
    let kind = kind_of(object.records, s);
    Row {
        length: s.name.length as usize,
        section: u64::from(s.index.0),
        kind: kind as u64,
        symbol: 0,
        own: own_length(object.records, n),
        def: parse_data_map_section(kind, s.size),
    }
}

// The row of the map of symbol j.
#[tactic(auto, using(crate::specs::Maps::legacy_row_of))]
fn legacy_row(object: Object, j: u32) -> Row
    requires { of RecordWithin object.records j }
    ensures { Read (of legacy_at object.entry.records j) result }
{
    let m = member_at(object, j);
    let y = m.symbol;
    let s = m.section;
    let data = object.records.data(s.bytes);
    let start = data.at + y.address as usize;
    Row {
        length: y.name.length as usize,
        section: u64::from(s.index.0),
        kind: EbpfSectionKind::Maps as u64,
        symbol: u64::from(y.index.0),
        own: 0,
        def: parse_map_def(data.stream.span(start, y.size as usize)),
    }
}

fn map_row(object: Object, n: u32) -> Row
    requires { of MapFits object.records n }
    ensures { Read (of map_at object.entry.records n) result }
{
    match object.records.map_source(n) {
        MapSource::Section(i) => data_row(object, n, i),
        MapSource::Symbol(j) => legacy_row(object, j),
    }
}

// The words as the numbers of a row.
fn wide_words(def: BpfMapDef) -> [u64; 7]
    ensures { result ≡ seven_words def }
{
    def.words.map(u64::from)
}

// A row at i, with its two places.
fn put_map_row(t: &mut [u64], i: usize, place: usize, own: usize, r: Row)
    requires { i + 27 ≤ length t.old }
    ensures { t.new ≡ sets t.old i (numbers place own r) }
{
    let front = [
        place as u64,
        r.length as u64,
        r.section,
        r.kind,
        r.symbol,
        own as u64,
        r.own as u64,
    ];
    put_row(t, i, front);
    put_row(t, i + 7, wide_words(r.def));
    put_row(t, i + 14, [0; 13]);
}

// The rows of the maps of `numbers`: their names lie one after the other from `at` on, their own bytes from `own` on.
#[tactic(auto, unfolding(model::specs::Bytes::each, model::specs::Lent::placed))]
pub fn put_map_rows(object: Object, numbers: &[u32], at: usize, own: usize, out: &mut [u64])
    requires { (length numbers.now < 2 ^ 20)
        × (at < 2 ^ 62)
        × (own < 2 ^ 62)
        × (length numbers.now * 27 ≤ length out.old)
        × ((k : ℕ) → k < length numbers.now → of MapFits object.records (get_or numbers.now k 0)) }
    ensures { out.new ≡ of map_rows object.entry.records at own numbers.now ++ drop (length numbers.now * 27) out.old }
{
    let mut place = at;
    let mut own_place = own;
    for (k, n) in numbers.iter().enumerate() {
        let r = map_row(object, *n);
        put_map_row(out, k * 27, place, own_place, r);
        place += r.length;
        own_place += r.own;
    }
}

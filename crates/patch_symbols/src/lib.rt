// The symbols that bear a name: none, one or several, by a binary search among all symbols sorted by the lengths of their names, then by their bytes.
#![tactic(auto)]

ghost use Rattle.std.specs.Prelude.{◌≡◌, ◌^◌, ◌<◌, ◌≤◌, length};
ghost use Rattle.model.specs.Bytes.{same, before};
ghost use Rattle.records.specs.Of.{of};
ghost use Rattle.orders.specs.Compare.{ordering};
ghost use Rattle.patch_symbols.specs.Bearers.{bearer_of, bearers_in};
ghost use Rattle.patch_symbols.specs.Search.{FirstNotBefore, Searchable, has_at, length_first, length_and_name, by_name};

use record_keys::{By, compare_with};
use records::{Object, Records};
use std::cmp::Ordering;

// The number of the one symbol that bears a name.
#[derive(Clone, Copy)]
pub enum Bearer {
    Nothing,
    One(u32),
    Several,
}

// All symbols sorted by the lengths of their names, then by n bytes: as many as the longest word has that is searched for.
#[tactic(auto, unfolding(crate::specs::Search::by_name))]
pub fn by_name(records: Records, n: u32, symbols: &mut [u32], tmp: &mut [u32])
    requires { (records.view.symbols ≤ 65536) × (length symbols.old ≡ records.view.symbols) × (length tmp.old ≡ records.view.symbols) }
    ensures { symbols.new ≡ of by_name records.entry n }
{
    record_sort::count_up(symbols);
    record_sort::sort(records, By::SymbolNameLength(n), symbols, tmp);
}

// How the name of symbol j stands to a word: by the lengths, and where they are the same by the bytes.
fn compare(records: Records, j: u32, word: &[u8]) -> Ordering
    requires { length word.now < 2 ^ 60 }
    ensures { result ≡ ordering (of length_and_name records.entry j) (length_first word.now) }
{
    let name = records.name(records.symbol_name(j));
    match name.len.cmp(&word.len()) {
        Ordering::Equal => compare_with(name, word),
        o => o,
    }
}

#[tactic(auto, using(crate::specs::Search::less_before))]
fn is_before(records: Records, j: u32, word: &[u8]) -> bool
    requires { length word.now < 2 ^ 60 }
    ensures { result ≡ before (of length_and_name records.entry j) (length_first word.now) }
{
    compare(records, j, word).is_lt()
}

#[tactic(auto, using(crate::specs::Search::equal_same))]
fn is_same(records: Records, j: u32, word: &[u8]) -> bool
    requires { length word.now < 2 ^ 60 }
    ensures { result ≡ same (length_first word.now) (of length_and_name records.entry j) }
{
    compare(records, j, word).is_eq()
}

// Whether a symbol stands at a place and bears the name.
fn bears_at(records: Records, symbols: &[u32], at: usize, word: &[u8]) -> bool
    requires { length word.now < 2 ^ 60 }
    ensures { result ≡ has_at (of length_and_name records.entry) (length_first word.now) symbols.now at }
{
    at < symbols.len() && is_same(records, symbols[at], word)
}

// The place of the first symbol whose name is not before the word, or how many there are.
fn lower_bound(records: Records, symbols: &[u32], word: &[u8]) -> usize
    requires { of Searchable records symbols.now (length word.now) × (length word.now ≤ 65535) }
    ensures { FirstNotBefore (of length_and_name records.entry) (length_first word.now) symbols.now result }
{
    let mut low = 0;
    let mut high = symbols.len();
    // The part that is left is halved, so its ends aren't a range to walk. std's `partition_point` asks once more, through a closure, and was slower.
    while low < high {
        let middle = low + (high - low) / 2;
        if is_before(records, symbols[middle], word) {
            low = middle + 1;
        } else {
            high = middle;
        }
    }
    low
}

pub fn bearer_of(object: Object, symbols: &[u32], word: &[u8]) -> Bearer
    requires { of Searchable object.records symbols.now (length word.now) }
    ensures { result ≡ bearer_of (of bearers_in object.entry.records word.now) }
{
    // No name is as long.
    if word.len() > 65535 {
        return Bearer::Nothing;
    }
    let at = lower_bound(object.records, symbols, word);
    if !bears_at(object.records, symbols, at, word) {
        return Bearer::Nothing;
    }
    if bears_at(object.records, symbols, at + 1, word) {
        return Bearer::Several;
    }
    Bearer::One(symbols[at])
}

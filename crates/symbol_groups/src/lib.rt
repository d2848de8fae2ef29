// All symbols sorted by section, and the group of one section's symbols in them.
#![tactic(auto)]

ghost use Rattle.std.specs.Prelude.{◌≡◌, ◌≤◌, length};
ghost use Rattle.std.specs.List.{prefix_len};
ghost use Rattle.catalogue_laws.specs.Numbers.{up_to};
ghost use Rattle.catalogue_laws.specs.SortedGroups.{by_section};
ghost use Rattle.orders.specs.Sort.{sorted};
ghost use Rattle.object.specs.View.{symbol_in};
ghost use Rattle.symbol_groups.specs.Cut.{lies_below, lies_at};
ghost use Rattle.records.specs.Of.{of};

use model::SectionIndex;
use record_keys::By;
use records::Records;

pub fn by_section(records: Records, symbols: &mut [u32], tmp: &mut [u32])
    requires { (records.view.symbols ≤ 65536) × (length symbols.old ≡ records.view.symbols) × (length tmp.old ≡ records.view.symbols) }
    ensures { symbols.new ≡ sorted (by_section (of symbol_in records.entry)) (up_to records.entry.view.symbols) }
{
    record_sort::count_up(symbols);
    record_sort::sort(records, By::SymbolSection, symbols, tmp);
}

// How many symbols in front lie in sections below k.
pub fn group_start(records: Records, symbols: &[u32], k: SectionIndex) -> usize
    ensures count { result ≡ prefix_len (of lies_below records.entry k.0) symbols.now }
    ensures within { result ≤ length symbols.now }
{
    symbols
        .iter()
        .take_while(|j| records.symbol_section(**j).0 < k.0)
        .count()
}

// How many symbols in front lie in section k.
pub fn group_end(records: Records, symbols: &[u32], k: SectionIndex) -> usize
    ensures count { result ≡ prefix_len (of lies_at records.entry k.0) symbols.now }
    ensures within { result ≤ length symbols.now }
{
    symbols
        .iter()
        .take_while(|j| records.symbol_section(**j).0 == k.0)
        .count()
}

// Patching: the data of an accepted patch list into the own bytes of the object's maps.
#![tactic(auto)]

ghost use Rattle.std.specs.Prelude.{◌≡◌, ◌+◌, ◌<◌, length, None};
ghost use Rattle.std.proofs.lemmas.List.Edits.{sets};
ghost use Rattle.model.specs.Bytes.{each};
ghost use Rattle.model.specs.Contents.{catalogue_of};
ghost use Rattle.model.specs.Lent.{map_own};
ghost use Rattle.model.specs.Patching.{patched};
ghost use Rattle.model.specs.Refusals.{patch_refusal};
ghost use Rattle.records.specs.Of.{of};
ghost use Rattle.object.specs.View.{object_in};
ghost use Rattle.patch_checks.specs.Entries.{entry_count};
ghost use Rattle.patch_checks.specs.Lists.{patches_in};
ghost use Rattle.patch_data.specs.Acts.{own_place_of, MapReached};
ghost use Rattle.patch_data.specs.Ready.{object_maps, Ready, own_at, checks_at};

use model::SymbolRecord;
use patch_checks::{PatchList, entry_at, part};
use patch_maps::place_of;
use patch_symbols::{Bearer, bearer_of};
use records::Object;

// The source over the bytes of a symbol, in the map of its section; the map's row says where that begins.
fn patch_symbol(
    object: Object,
    by: &[u32],
    rows: &[u64],
    own: usize,
    y: SymbolRecord,
    source: &[u8],
    bytes: &mut [u8],
)
    requires { of MapReached object.records by.now rows.now own y (length source.now) (length bytes.old) }
    ensures { bytes.new
        ≡ sets bytes.old (of own_place_of object.entry.records by.now rows.now own y) source.now }
{
    let place = place_of(object, by, y).unwrap();
    let at = rows[27 * place + 5] as usize - own + y.address as usize;
    lists::copy(&mut bytes[at..at + source.len()], source);
}

// Entry e, counted from 0, acts.
fn patch_entry(
    object: Object,
    list: PatchList,
    e: usize,
    symbols: &[u32],
    by: &[u32],
    rows: &[u64],
    own: usize,
    bytes: &mut [u8],
)
    requires { of Ready object.records list.entries.now symbols.now by.now rows.now own
        × (e < entry_count list.entries.now)
        × of checks_at object.records list.entries.now list.bytes.now e
        × (bytes.old ≡ of own_at object.records list.entries.now list.bytes.now e) }
    ensures { bytes.new ≡ of own_at object.entry.records list.entry.entries.now list.entry.bytes.now (e + 1) }
{
    let x = entry_at(list.entries, e);
    if let Bearer::One(j) = bearer_of(object, symbols, part(list.bytes, x.name)) {
        let y = object.records.symbol(j);
        let source = part(list.bytes, x.bytes);
        patch_symbol(object, by, rows, own, y, source, bytes);
    }
}

// The own bytes of the object's maps, patched.
pub fn patch_map_data(
    object: Object,
    list: PatchList,
    symbols: &[u32],
    by: &[u32],
    rows: &[u64],
    own: usize,
    bytes: &mut [u8],
)
    requires { of Ready object.records list.entries.now symbols.now by.now rows.now own
        × (patch_refusal (of object_in object.records) (of object_maps object.records) 1 (patches_in list) ≡ None)
        × (bytes.old ≡ each map_own (of object_maps object.records)) }
    ensures { bytes.new
        ≡ each map_own
        (patched (of object_in object.entry.records) (patches_in list.entry)
        (catalogue_of (of object_in object.entry.records))).maps }
{
    for e in 0..list.entries.len().div_ceil(5) {
        patch_entry(object, list, e, symbols, by, rows, own, bytes);
    }
}

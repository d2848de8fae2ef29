// The bytes of a filled catalogue, patched and rewritten.
#![tactic(auto)]

ghost use Rattle.std.specs.Prelude.{◌≡◌, ℕ, ◌<◌, length, None};
ghost use Rattle.model.specs.Bytes.{each};
ghost use Rattle.model.specs.Lent.{map_own, bytes_of, filled};
ghost use Rattle.model.specs.Patching.{patched, finish};
ghost use Rattle.model.specs.Refusals.{object_refusal, patch_refusal};
ghost use Rattle.stream.specs.Stream.{byte_at};
ghost use Rattle.records.specs.Of.{of};
ghost use Rattle.object.specs.View.{object_in};
ghost use Rattle.bytes_layout.specs.Held.{At};
ghost use Rattle.bytes_layout.specs.Parts.{catalogue};
ghost use Rattle.patch_checks.specs.Lists.{patches_in};
ghost use Rattle.patch_data.specs.Ready.{Ready as PatchReady};

use bytes_layout::Places;
use insn::sanitize_code;
use patch_checks::PatchList;
use patch_data::patch_map_data;
use records::Object;

// Says what the type of a slice tells of its bytes, which a struct that holds the slice doesn't.
#[tactic(auto, unfolding(stream::specs::Stream::byte_at))]
fn bytes_fit(d: &[u8])
    ensures { (gap k : ℕ) → byte_at d.now gap k < 256 }
{}

// The maps' own bytes, which begin at `own` of all, as the patch list leaves them.
fn patch_bytes(
    object: Object,
    list: PatchList,
    symbols: &[u32],
    by: &[u32],
    rows: &[u64],
    own: usize,
    bytes: &mut [u8],
)
    requires { (0 < length list.entries.now → of PatchReady object.records list.entries.now symbols.now by.now rows.now own)
        × (patch_refusal (of object_in object.records) (of catalogue object.records).maps 1 (patches_in list) ≡ None)
        × (bytes.old ≡ each map_own (of catalogue object.records).maps) }
    ensures { bytes.new
        ≡ each map_own
        (patched (of object_in object.entry.records) (patches_in list.entry) (of catalogue object.entry.records)).maps }
{
    if !list.entries.is_empty() {
        patch_map_data(object, list, symbols, by, rows, own, bytes);
    }
}

// The bytes of a filled catalogue: `rows` is the maps' table as it is lent. The code of all functions lies in a row, and is rewritten in one go.
pub fn finish_bytes(
    object: Object,
    list: PatchList,
    rewrite: bool,
    places: Places,
    symbols: &[u32],
    by: &[u32],
    rows: &[u64],
    out: &mut [u8],
)
    requires { (object_refusal (of object_in object.records) ≡ None)
        × (patch_refusal (of object_in object.records) (of catalogue object.records).maps 1 (patches_in list) ≡ None)
        × At (of catalogue object.records) places
        × (0 < length list.entries.now
        → of PatchReady object.records list.entries.now symbols.now by.now rows.now places.own)
        × (out.old ≡ filled 0 (length out.old) (bytes_of (of catalogue object.records))) }
    ensures { out.new
        ≡ filled 0 (length out.old)
        (bytes_of (finish (of object_in object.entry.records) (patches_in list.entry) rewrite
        (of catalogue object.entry.records))) }
{
    bytes_fit(object.records.bytes);
    let own = places.own;
    patch_bytes(
        object,
        list,
        symbols,
        by,
        rows,
        own,
        &mut out[own..places.end],
    );
    sanitize_code(&mut out[places.code..places.maps], rewrite);
}

// The load of an object without the function table: its answer, the lent tables and bytes, and the record numbers of the function table's rows.
#![tactic(auto)]

ghost use Rattle.std.specs.Prelude.{◌≡◌, ◌&&◌, ◌+◌, ◌≤◌, leb, length};
ghost use Rattle.model.specs.Lent.{lent_room, outcome_in};
ghost use Rattle.model.specs.Patching.{load};
ghost use Rattle.object.specs.View.{object_in};
ghost use Rattle.records.specs.Of.{of};
ghost use Rattle.patch_checks.specs.Lists.{patches_in};
ghost use Rattle.load_object.specs.Done.{Done};

use load_object::Loaded;
use load_sized::load_sized;
use model::Refusal;
use object_view::View;
use patch_checks::PatchList;
use records::Object;

// Tells whether n numbers are enough for the sections with the symbols, and r for the relocations.
fn few(v: View, n: usize, r: usize) -> bool
    ensures { result ≡ (leb (v.sections + v.symbols) n && leb v.relocations r) }
{
    v.sections as usize + v.symbols as usize <= n && v.relocations as usize <= r
}

// `rows` is how many rows the function table has; `symbols` gets the record numbers of its rows.
pub fn load_in_arrays(
    object: Object,
    list: PatchList,
    rewrite: bool,
    rows: usize,
    sections: &mut [u64],
    programs: &mut [u64],
    maps: &mut [u64],
    relocations: &mut [u64],
    bytes: &mut [u8],
    symbols: &mut [u32],
) -> Result<Loaded, Refusal>
    requires { object.records.view.symbols ≤ length symbols.old }
    ensures { Done object.entry.records rows
        (outcome_in
        (lent_room (length sections.old) (length programs.old) rows (length maps.old) (length relocations.old)
        (length bytes.old))
        (load (of object_in object.entry.records) (patches_in list.entry) rewrite))
        result sections.new programs.new maps.new relocations.new bytes.new symbols.new }
{
    let v = object.records.view;
    let functions = &mut symbols[..v.symbols as usize];
    if few(v, 64, 128) {
        load_sized::<64, 64, 64, 128, 128>(
            object,
            list,
            rewrite,
            rows,
            sections,
            programs,
            maps,
            relocations,
            bytes,
            functions,
        )
    } else if few(v, 512, 2048) {
        load_sized::<512, 512, 512, 2048, 2048>(
            object,
            list,
            rewrite,
            rows,
            sections,
            programs,
            maps,
            relocations,
            bytes,
            functions,
        )
    } else if few(v, 4096, 16384) {
        load_sized::<4096, 4096, 4096, 16384, 16384>(
            object,
            list,
            rewrite,
            rows,
            sections,
            programs,
            maps,
            relocations,
            bytes,
            functions,
        )
    } else {
        load_sized::<4096, 65536, 69632, 69632, 65536>(
            object,
            list,
            rewrite,
            rows,
            sections,
            programs,
            maps,
            relocations,
            bytes,
            functions,
        )
    }
}

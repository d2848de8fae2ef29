// An opened object loaded, but for the function table: what refuses it is decided, the lent tables and bytes are filled, then the bytes are finished.
#![tactic(auto)]

ghost use Rattle.std.specs.Prelude.{◌≤◌, length};
ghost use Rattle.model.specs.Lent.{lent_room, outcome_in};
ghost use Rattle.model.specs.Patching.{load};
ghost use Rattle.records.specs.Of.{of};
ghost use Rattle.object.specs.View.{object_in};
ghost use Rattle.patch_checks.specs.Lists.{patches_in};
ghost use Rattle.load_object.specs.Core.{Scratch, Tried};
ghost use Rattle.load_object.specs.Done.{Done};

use bytes_layout::Accepted;
use load_decision::{decide_patches, decide_room};
use load_fill::{clear, fill, summary};
use load_finish::finish_bytes;
use model::{Refusal, Room, Summary};
use parse_sections::Counts;
use parse_tables::parse;
use patch_checks::PatchList;
use records::Object;
use rows_functions::Rows;

// The summary, and where the rows of the function table begin.
#[derive(Clone, Copy)]
pub struct Loaded {
    pub summary: Summary,
    pub rows: Rows,
}

// Numbers 18 to 24, or all that is lent is filled; a and b are worked in.
fn load_accepted(
    accepted: Accepted,
    list: PatchList,
    rewrite: bool,
    rows: usize,
    sections: &mut [u64],
    programs: &mut [u64],
    maps: &mut [u64],
    relocations: &mut [u64],
    bytes: &mut [u8],
    a: &mut [u32],
    b: &mut [u32],
) -> Result<Loaded, Refusal>
    requires { (accepted.object.records.view.symbols ≤ length a.old)
        × (accepted.object.records.view.relocations ≤ length a.old)
        × (accepted.object.records.view.sections ≤ length b.old)
        × (accepted.object.records.view.symbols ≤ length b.old)
        × (accepted.object.records.view.relocations ≤ length b.old) }
    ensures { Tried accepted.entry.object.records
        (lent_room (length sections.old) (length programs.old) rows (length maps.old) (length relocations.old)
        (length bytes.old))
        (patches_in list.entry) rewrite result sections.new programs.new maps.new relocations.new bytes.new
        accepted.entry.functions.now }
{
    let room = Room {
        sections: sections.len(),
        programs: programs.len(),
        functions: rows,
        maps: maps.len(),
        relocations: relocations.len(),
        bytes: bytes.len(),
    };
    let decision = decide_room(accepted, room, a, b, relocations);
    let symbols = &mut a[..accepted.object.records.view.symbols as usize];
    let object = accepted.object;
    decide_patches(object, accepted.maps, list, symbols, b)?;
    let plan = decision?;
    fill(accepted, plan, sections, programs, maps, relocations, bytes);
    let places = plan.places;
    finish_bytes(object, list, rewrite, places, symbols, b, maps, bytes);
    let counts = Counts {
        sections: accepted.sections.len(),
        programs: accepted.programs.len(),
        functions: accepted.functions.len(),
        maps: accepted.maps.len(),
        license: accepted.license,
        version: accepted.version,
    };
    Ok(Loaded {
        summary: summary(object.records.view, counts, plan),
        rows: Rows {
            name: places.functions as u64,
            code: places.code as u64,
        },
    })
}

// The same behind numbers 4 to 17. Where it is refused, nothing is said of what is lent.
fn try_load(
    object: Object,
    list: PatchList,
    rewrite: bool,
    rows: usize,
    sections: &mut [u64],
    programs: &mut [u64],
    maps: &mut [u64],
    relocations: &mut [u64],
    bytes: &mut [u8],
    s: &mut [u32],
    p: &mut [u32],
    f: &mut [u32],
    m: &mut [u32],
    a: &mut [u32],
    b: &mut [u32],
) -> Result<Loaded, Refusal>
    requires { Scratch object.records.view s.old p.old f.old m.old a.old b.old }
    ensures { Tried object.entry.records
        (lent_room (length sections.old) (length programs.old) rows (length maps.old) (length relocations.old)
        (length bytes.old))
        (patches_in list.entry) rewrite result sections.new programs.new maps.new relocations.new bytes.new f.new }
{
    let n = parse(object, s, p, f, m, a, b)?;
    let accepted = Accepted {
        object,
        sections: &s[..n.sections],
        programs: &p[..n.programs],
        functions: &f[..n.functions],
        maps: &m[..n.maps],
        license: n.license,
        version: n.version,
    };
    load_accepted(
        accepted,
        list,
        rewrite,
        rows,
        sections,
        programs,
        maps,
        relocations,
        bytes,
        a,
        b,
    )
}

// `rows` is how many rows the function table has. The record numbers of sections, programs, functions and maps go into s, p, f and m; a and b are worked in.
pub fn load_object(
    object: Object,
    list: PatchList,
    rewrite: bool,
    rows: usize,
    sections: &mut [u64],
    programs: &mut [u64],
    maps: &mut [u64],
    relocations: &mut [u64],
    bytes: &mut [u8],
    s: &mut [u32],
    p: &mut [u32],
    f: &mut [u32],
    m: &mut [u32],
    a: &mut [u32],
    b: &mut [u32],
) -> Result<Loaded, Refusal>
    requires { Scratch object.records.view s.old p.old f.old m.old a.old b.old }
    ensures { Done object.entry.records rows
        (outcome_in
        (lent_room (length sections.old) (length programs.old) rows (length maps.old) (length relocations.old)
        (length bytes.old))
        (load (of object_in object.entry.records) (patches_in list.entry) rewrite))
        result sections.new programs.new maps.new relocations.new bytes.new f.new }
{
    let loaded = try_load(
        object,
        list,
        rewrite,
        rows,
        sections,
        programs,
        maps,
        relocations,
        bytes,
        s,
        p,
        f,
        m,
        a,
        b,
    );
    if loaded.is_err() {
        clear(sections, programs, maps, relocations, bytes);
    }
    loaded
}

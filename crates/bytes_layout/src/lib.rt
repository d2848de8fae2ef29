// The bytes of a lent catalogue: the places of its parts, and the parts laid one after the other.
#![tactic(auto)]

ghost use Rattle.std.specs.Prelude.{◌≡◌, ◌++◌, ◌*◌, ◌≤◌, length, drop};
ghost use Rattle.model.specs.Bytes.{each};
ghost use Rattle.model.specs.Contents.{licence_of};
ghost use Rattle.object.specs.View.{object_in};
ghost use Rattle.model.specs.Lent.{bytes_of};
ghost use Rattle.records.specs.Of.{of};
ghost use Rattle.parse_first.specs.LicenceVersion.{license_at};
ghost use Rattle.bytes_layout.specs.Licence.{licence_length};
ghost use Rattle.bytes_layout.specs.Parts.{catalogue};
ghost use Rattle.bytes_layout.specs.Held.{At};
ghost use Rattle.bytes_layout.specs.Listed.{part_of, PartFits, PartListed};

mod accepted;

pub use accepted::Accepted;
use bytes_names::{Piece, copy_span};
use model::Extent;
use records::Object;

// Where the parts begin, and where the last ends.
#[derive(Clone, Copy)]
pub struct Places {
    pub sections: usize,
    pub programs: usize,
    pub functions: usize,
    pub code: usize,
    pub maps: usize,
    pub own: usize,
    pub end: usize,
}

// What is laid for each number of a table.
#[derive(Clone, Copy)]
enum Part {
    Name(Piece),
    Code,
    Own,
}

// How many bytes number j has of a part.
fn part_length(object: Object, part: Part, j: u32) -> usize
    requires { of (PartFits part) object.records j }
    ensures { (result ≡ length (of (part_of part) object.entry.records j)) × (result ≤ 16777216) }
{
    match part {
        Part::Name(which) => bytes_names::name_length(object.records, which, j),
        Part::Code => bytes_code::code_length(object, j),
        Part::Own => bytes_maps::own_length(object.records, j),
    }
}

// How many bytes the numbers have of a part.
fn total(object: Object, part: Part, numbers: &[u32]) -> usize
    requires { of (PartListed part) object.records numbers.now }
    ensures { (result ≡ length (each (of (part_of part) object.entry.records) numbers.now)) × (result ≤ 69632 * 16777216) }
{
    let mut sum: usize = 0;
    for j in numbers {
        sum += part_length(object, part, *j);
    }
    sum
}

// Those of number j at the front of out; how many they are.
fn put_one(object: Object, part: Part, j: u32, out: &mut [u8]) -> usize
    requires { of (PartFits part) object.records j × (length (of (part_of part) object.records j) ≤ length out.old) }
    ensures { (result ≡ length (of (part_of part) object.entry.records j))
        × (out.new ≡ of (part_of part) object.entry.records j ++ drop result out.old) }
{
    match part {
        Part::Name(which) => bytes_names::put_name(object.records, which, j, out),
        Part::Code => bytes_code::put_code(object, j, out),
        Part::Own => bytes_maps::put_own(object, j, out),
    }
}

// Those of all numbers, one after the other, at the front of out; how many they are.
fn put_part(object: Object, part: Part, numbers: &[u32], out: &mut [u8]) -> usize
    requires { of (PartListed part) object.records numbers.now
        × (length (each (of (part_of part) object.records) numbers.now) ≤ length out.old) }
    ensures { (result ≡ length (each (of (part_of part) object.entry.records) numbers.now))
        × (out.new ≡ each (of (part_of part) object.entry.records) numbers.now ++ drop result out.old) }
{
    let mut at: usize = 0;
    for j in numbers {
        at += put_one(object, part, *j, &mut out[at..]);
    }
    at
}

fn license_length(license: Option<Extent>) -> usize
    ensures { result ≡ licence_length license }
{
    match license {
        Some(e) => e.length as usize,
        None => 3,
    }
}

// The licence at the front of out; how many bytes it has.
fn put_license(object: Object, license: Option<Extent>, out: &mut [u8]) -> usize
    requires { (license ≡ of license_at object.records) × (length (licence_of (of object_in object.records)) ≤ length out.old) }
    ensures { (result ≡ length (licence_of (of object_in object.entry.records)))
        × (out.new ≡ licence_of (of object_in object.entry.records) ++ drop result out.old) }
{
    match license {
        Some(e) => {
            let data = object.records.data(e);
            copy_span(data, &mut out[..data.len]);
            data.len
        }
        None => {
            out[..3].copy_from_slice(b"GPL");
            3
        }
    }
}

pub fn layout(accepted: Accepted) -> Places
    ensures { At (of catalogue accepted.entry.object.records) result }
{
    let object = accepted.object;
    let section_name = Part::Name(Piece::SectionName);
    let symbol_name = Part::Name(Piece::SymbolName);
    let map_name = Part::Name(Piece::MapName);
    let sections = license_length(accepted.license);
    let programs = sections + total(object, section_name, accepted.sections);
    let functions = programs + total(object, symbol_name, accepted.programs);
    let code = functions + total(object, symbol_name, accepted.functions);
    let maps = code + total(object, Part::Code, accepted.functions);
    let own = maps + total(object, map_name, accepted.maps);
    let end = own + total(object, Part::Own, accepted.maps);
    Places {
        sections,
        programs,
        functions,
        code,
        maps,
        own,
        end,
    }
}

// All of the bytes at the front of out.
pub fn put(accepted: Accepted, out: &mut [u8])
    requires { length (bytes_of (of catalogue accepted.object.records)) ≤ length out.old }
    ensures { out.new
        ≡ bytes_of (of catalogue accepted.entry.object.records)
        ++ drop (length (bytes_of (of catalogue accepted.entry.object.records))) out.old }
{
    let object = accepted.object;
    let section_name = Part::Name(Piece::SectionName);
    let symbol_name = Part::Name(Piece::SymbolName);
    let map_name = Part::Name(Piece::MapName);
    let mut at = put_license(object, accepted.license, out);
    at += put_part(object, section_name, accepted.sections, &mut out[at..]);
    at += put_part(object, symbol_name, accepted.programs, &mut out[at..]);
    at += put_part(object, symbol_name, accepted.functions, &mut out[at..]);
    at += put_part(object, Part::Code, accepted.functions, &mut out[at..]);
    at += put_part(object, map_name, accepted.maps, &mut out[at..]);
    put_part(object, Part::Own, accepted.maps, &mut out[at..]);
}

// The own bytes of maps, by map numbers.
#![tactic(auto)]

ghost use Rattle.std.specs.Prelude.{◌≡◌, ◌++◌, ◌^◌, ◌<◌, ◌≤◌, length, drop};
ghost use Rattle.records.specs.Readable.{Readable};
ghost use Rattle.records.specs.Of.{of};
ghost use Rattle.bytes_maps.specs.Own.{own_of, own_bytes};

use bytes_names::copy_span;
use model::Extent;
use object::kind_of;
use records::{MapSource, Object, Records};
use section_kind::is_bss;

// What a map's own bytes are: zeros, or a range of the data.
#[derive(Clone, Copy)]
pub enum Own {
    Nothing,
    Zeros(usize),
    Bytes(Extent),
}

// What map number n owns: a symbol's owns nothing.
#[tactic(auto, unfolding(crate::specs::Own::own_of))]
fn own_of(records: Records, n: u32) -> Own
    ensures { result ≡ of own_of records.entry n }
{
    match records.map_source(n) {
        MapSource::Section(i) => {
            let s = records.section(i);
            if is_bss(kind_of(records, s)) {
                Own::Zeros(s.size as usize)
            } else {
                Own::Bytes(s.bytes)
            }
        }
        MapSource::Symbol(_) => Own::Nothing,
    }
}

// How many bytes map number n owns.
#[tactic(auto, using(crate::specs::Own::owned))]
pub fn own_length(records: Records, n: u32) -> usize
    ensures { (result ≡ length (of own_bytes records.entry n)) × (of Readable records.entry → result < 2 ^ 32) }
{
    match own_of(records, n) {
        Own::Nothing => 0,
        Own::Zeros(len) => len,
        Own::Bytes(e) => e.length as usize,
    }
}

// What map number n owns at the front of out; how many bytes that is.
#[tactic(auto, using(crate::specs::Own::owned))]
pub fn put_own(object: Object, n: u32, out: &mut [u8]) -> usize
    requires { length (of own_bytes object.records n) ≤ length out.old }
    ensures { (result ≡ length (of own_bytes object.entry.records n))
        × (out.new ≡ of own_bytes object.entry.records n ++ drop result out.old) }
{
    match own_of(object.records, n) {
        Own::Nothing => 0,
        Own::Zeros(len) => {
            out[..len].fill(0);
            len
        }
        Own::Bytes(e) => {
            let data = object.records.data(e);
            copy_span(data, &mut out[..data.len]);
            data.len
        }
    }
}

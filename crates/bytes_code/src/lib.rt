// The code of functions, by symbol numbers.
#![tactic(auto)]

ghost use Rattle.std.specs.Prelude.{◌≡◌, ◌++◌, ℕ, ◌^◌, ◌<◌, ◌≤◌, length, drop};
ghost use Rattle.stream.specs.Stream.{byte_at};
ghost use Rattle.catalogue_numbers.specs.Fits.{FunctionFits};
ghost use Rattle.bytes_code.specs.Code.{code_at};
ghost use Rattle.records.specs.Of.{of};

use bytes_names::copy_span;
use object::code_offset;
use records::Object;
use symbol_section::member_at;

// Says what the type of a slice tells of its bytes, which a struct that holds the slice doesn't.
#[tactic(auto, unfolding(stream::specs::Stream::byte_at))]
fn bytes_fit(d: &[u8])
    ensures { (gap k : ℕ) → byte_at d.now gap k < 256 }
{}

// How many bytes of code the function of symbol j has.
pub fn code_length(object: Object, j: u32) -> usize
    requires { of FunctionFits object.records j }
    ensures { (result ≡ length (of code_at object.entry.records j)) × (result < 2 ^ 32) }
{
    bytes_fit(object.records.bytes);
    object.records.symbol(j).size as usize
}

// That code at the front of out; how many bytes it has.
pub fn put_code(object: Object, j: u32, out: &mut [u8]) -> usize
    requires { of FunctionFits object.records j × (length (of code_at object.records j) ≤ length out.old) }
    ensures { (result ≡ length (of code_at object.entry.records j))
        × (out.new ≡ of code_at object.entry.records j ++ drop result out.old) }
{
    bytes_fit(object.records.bytes);
    let m = member_at(object, j);
    let data = object.records.data(m.section.bytes);
    let start = data.at + code_offset(object.records, m.section, m.symbol) as usize;
    let len = m.symbol.size as usize;
    copy_span(data.stream.span(start, len), &mut out[..len]);
    len
}

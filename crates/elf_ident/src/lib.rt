// Number 25 of an ELF file's fields: each is compared as far as it is present; a byte past the end differs from nothing.
#![tactic(auto)]

ghost use Rattle.std.specs.Prelude.{◌≡◌, ◌+◌, ◌^◌, ◌<◌, ◌≤◌, length};
ghost use Rattle.model.specs.Bytes.{starts_with, part};
ghost use Rattle.model.specs.ElfRefusals.{field_is};
ghost use Rattle.elf_ident.specs.FirstBytes.{order_mark, low_place, first_bytes_ok};

use model::Endianness;

// The bytes from p on that are present, n at most.
fn present(d: &[u8], p: usize, n: usize) -> &[u8]
    requires { p + n < 2 ^ 64 }
    ensures { result.now ≡ part d.now p n }
{
    let start = p.min(d.len());
    let end = (p + n).min(d.len());
    &d[start..end]
}

// Tells whether the bytes from p on that are present are those of s.
#[tactic(auto, using(crate::specs::FirstBytes::starts_pointwise))]
fn bytes_are(d: &[u8], p: usize, s: &[u8]) -> bool
    requires { p + length s.now < 2 ^ 64 }
    ensures { result ≡ starts_with (part d.now p (length s.now)) s.now }
{
    s.starts_with(present(d, p, s.len()))
}

// A number's lowest byte stands first, or last of w.
#[tactic(auto, unfolding(crate::specs::FirstBytes::low_place))]
fn low_place(order: Endianness, w: usize) -> usize
    requires { 0 < w }
    ensures { result ≡ low_place order w }
{
    match order {
        Endianness::Little => 0,
        Endianness::Big => w - 1,
    }
}

// Tells whether the bytes from p on that are present, up to w, are those of the number x in the file's byte order.
pub fn field_is(d: &[u8], order: Endianness, p: usize, w: usize, x: u8) -> bool
    requires { (p + w < 2 ^ 64) × (0 < w) × (w ≤ 8) }
    ensures { result ≡ field_is order w x (part d.now p w) }
{
    let mut s = [0; 8];
    let low = low_place(order, w);
    s[low] = x;
    bytes_are(d, p, &s[..w])
}

#[tactic(auto, unfolding(crate::specs::FirstBytes::order_mark))]
fn order_mark(order: Endianness) -> u8
    ensures { result ≡ order_mark order }
{
    order as u8 + 1
}

// Looks at the first seven bytes, the type, the machine and the size of a section header.
#[tactic(auto, using(crate::specs::FirstBytes::first_seven_mark), unfolding(crate::specs::FirstBytes::first_bytes_ok))]
pub fn first_bytes_ok(d: &[u8], order: Endianness) -> bool
    ensures { result ≡ first_bytes_ok d.now order }
{
    let seven = [127, 69, 76, 70, 2, order_mark(order), 1];
    bytes_are(d, 0, &seven)
        && field_is(d, order, 16, 2, 1)
        && field_is(d, order, 18, 2, 247)
        && field_is(d, order, 58, 2, 64)
}

// Text that is put together in an array, and cut where the array is full.
#![tactic(auto)]

ghost use Rattle.std.specs.Prelude.{◌≡◌, ◌≤◌, List, [], ℕ, take};
ghost use Rattle.model.specs.Listing.{decimal};
ghost use Rattle.text.specs.Pushed.{pushed};

use std::marker::Model;

#[derive(Drop)]
pub struct Text<const N: usize> {
    bytes: [u8; N],
    len: usize,
}

impl<const N: usize> Model for Text<N> {
    ghost Value = { List ℕ };

    ghost view = { λ t. take t.len t.bytes };

    ghost invariant = { λ t. t.len ≤ N };
}

impl<const N: usize> Text<N> {
    pub fn new() -> Self
        ensures { result ≡ [] }
    {
        Text {
            bytes: [0; N],
            len: 0,
        }
    }

    pub fn as_bytes(&self) -> &[u8]
        ensures { result.now ≡ self.now }
    {
        &self.bytes[..self.len]
    }

    pub fn push(&mut self, s: &[u8])
        ensures { self.new ≡ pushed N self.old s.now }
    {
        let n = s.len().min(N - self.len);
        let end = self.len + n;
        let bytes = &mut self.bytes[..];
        bytes[self.len..end].copy_from_slice(&s[..n]);
        self.len = end;
    }

    // The number in decimal digits.
    pub fn push_number(&mut self, n: u64)
        ensures { self.new ≡ pushed N self.old (decimal n) }
    {
        let mut digits = [0u8; 20];
        let k = io::decimal(n, &mut digits);
        self.push(&digits[..k]);
    }
}

// Text and decimal numbers, put into a buffer piece by piece.
#![tactic(auto)]

ghost use Rattle.std.specs.Prelude.{◌≡◌, ◌∷◌, [], ◌++◌, ◌+◌, ◌≤◌, ◌<◌, length};
ghost use Rattle.text.specs.Decimal.{decimal_of};

use std::marker::Model;

// Text of at most N bytes. A contract sees the list of its bytes.
// Kept: nothing is allocated, so no `String`; an `ArrayVec` proves, but leaves no way to write the edit bytes_behind.
#[derive(Drop)]
pub struct TextBuffer<const N: usize> {
    bytes: [u8; N],
    len: usize,
}

impl<const N: usize> Model for TextBuffer<N> {
    ghost use Rattle.std.specs.Prelude.{ℕ, List, ◌≤◌, take};

    ghost Value = { List ℕ };

    ghost view = { λ t. take t.len t.bytes };

    ghost invariant = { λ t. t.len ≤ N };
}

impl<const N: usize> TextBuffer<N> {
    pub fn new() -> TextBuffer<N>
        ensures { result ≡ [] }
    {
        TextBuffer {
            bytes: [0; N],
            len: 0,
        }
    }

    pub fn bytes(&self) -> &[u8]
        ensures value { result.now ≡ self.now }
        ensures within { length self.now ≤ N }
    {
        &self.bytes[..self.len]
    }

    // How many bytes more there is room for.
    pub fn room(&self) -> usize
        ensures { result + length self.now ≡ N }
    {
        N - self.len
    }

    pub fn clear(&mut self)
        ensures { self.new ≡ [] }
    {
        self.len = 0;
    }

    pub fn push(&mut self, text: &[u8])
        requires { length self.old + length text.now ≤ N }
        ensures { self.new ≡ self.old ++ text.now }
    {
        let start = self.len;
        let end = start + text.len();
        let all = &mut self.bytes[..];
        all[start..end].copy_from_slice(text);
        self.len = end;
    }

    pub fn push_byte(&mut self, byte: u8)
        requires { length self.old < N }
        ensures { self.new ≡ self.old ++ byte ∷ [] }
    {
        self.bytes[self.len] = byte;
        self.len += 1;
    }

    // The decimal digits of n, of which there are at most 20.
    #[tactic(auto, using(crate::proofs::Digits::decimal_is, crate::proofs::Digits::decimal_short))]
    pub fn push_decimal(&mut self, n: u64)
        requires { length self.old + 20 ≤ N }
        ensures digits { self.new ≡ self.old ++ decimal_of n }
        ensures few { length self.new ≤ length self.old + 20 }
    {
        let mut digits = [0u8; 20];
        let count = io::decimal(n, &mut digits);
        self.push(&digits[..count]);
    }
}

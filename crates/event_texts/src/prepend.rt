//! Text that grows at its start.

ghost use Rattle.std.specs.Prelude.{◌≡◌, ◌≤◌, ◌<◌, ◌+◌, ◌++◌, ◌∷◌, [], ℕ, List, length, drop, decimal};

use itoa::write_digits;
use std::marker::Model;

/// How many bytes there is room for.
const ROOM: usize = 128;

/// A short text that grows at its start, as the digits of a number come: the last one first. It takes no memory.
#[derive(Drop)]
pub struct PrependBuffer {
    bytes: [u8; ROOM],
    start: usize,
}

impl Model for PrependBuffer {
    ghost Value = { List ℕ };

    ghost view = { λ f. drop f.start f.bytes };

    ghost invariant = { λ f. f.start ≤ 128 };
}

impl PrependBuffer {
    /// No text.
    #[inline]
    pub fn new() -> PrependBuffer
        ensures { result ≡ [] }
    {
        PrependBuffer {
            bytes: [0; ROOM],
            start: ROOM,
        }
    }

    /// The text.
    #[inline]
    pub fn as_slice(&self) -> &[u8]
        ensures { result.now ≡ self.now }
    {
        &self.bytes[self.start..]
    }

    /// Puts the byte before the text.
    #[inline]
    pub fn put_byte(&mut self, byte: u8)
        requires { length self.old < 128 }
        ensures { self.new ≡ byte ∷ self.old }
    {
        self.start -= 1;
        self.bytes[self.start] = byte;
    }

    /// Puts the decimal digits of the number before the text.
    #[inline]
    pub fn put_number(&mut self, number: u64)
        requires { length self.old + 20 ≤ 128 }
        ensures text { self.new ≡ decimal number ++ self.old }
        ensures short { length self.new ≤ length self.old + 20 }
    {
        self.start = write_digits(number, &mut self.bytes, self.start);
    }

    /// Puts the word before the text.
    #[inline]
    pub fn put_word(&mut self, word: &str)
        requires { length self.old + length word.now ≤ 128 }
        ensures { self.new ≡ word.now ++ self.old }
    {
        let end = self.start;
        self.start -= word.len();
        self.bytes[self.start..end].copy_from_slice(word.as_bytes());
    }
}

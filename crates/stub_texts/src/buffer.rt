//! Text that grows at its end.

ghost use Rattle.std.specs.Prelude.{◌≡◌, [], Some, IfOk, decimal};
ghost use Rattle.stub_operations.specs.Growing.{IsAdded};

use itoa::write_digits;
use std::alloc::{AllocError, Global};
use std::marker::Model;

/// A text, or that memory ran out: then nothing more is added to it.
#[derive(Drop)]
pub(crate) struct TextBuffer {
    bytes: Vec<u8>,
    is_full: bool,
}

impl Model for TextBuffer {
    ghost use Rattle.std.specs.Prelude.{ℕ, List, Option, Some, None, if◌then◌else◌};

    ghost Value = { Option (List ℕ) };

    ghost view = { λ b. if b.is_full then None else Some b.bytes.items };
}

impl TextBuffer {
    /// No text.
    pub(crate) fn new(alloc: Global) -> TextBuffer
        ensures { result ≡ Some [] }
    {
        TextBuffer {
            bytes: Vec::new(alloc),
            is_full: false,
        }
    }

    /// Adds the text.
    pub(crate) fn put(&mut self, text: &[u8])
        ensures { IsAdded self.old text.now self.new }
    {
        if self.bytes.extend_from_slice(text).is_err() {
            self.is_full = true;
        }
    }

    /// Adds the decimal digits of the number.
    pub(crate) fn put_number(&mut self, number: u64)
        ensures { IsAdded self.old (decimal number) self.new }
    {
        let mut digits = [0; 20];
        let start = write_digits(number, &mut digits, 20);
        self.put(&digits[start..]);
    }

    /// The text. `AllocError` where memory ran out.
    pub(crate) fn finish(self) -> Result<Vec<u8>, AllocError>
        ensures { IfOk result (λ v. self ≡ Some v.items) }
    {
        let TextBuffer { bytes, is_full } = self;
        if is_full { Err(AllocError) } else { Ok(bytes) }
    }
}

//! Bytes that grow at their end.

ghost use Rattle.std.specs.Prelude.{◌≡◌, [], ◌∷◌, ℕ, List, Some, IfOk, length, replicate, take};
ghost use Rattle.marks.specs.Ranges.{bytes_of_number};
ghost use Rattle.stub_operations.specs.Growing.{IsAdded};
ghost use Rattle.isolation_check_rules.specs.Images.{padded};

use std::alloc::{AllocError, Global};
use std::marker::Model;

/// Bytes, or that memory ran out: then nothing more is added to them.
#[derive(Drop)]
pub(crate) struct ByteBuffer {
    bytes: Vec<u8>,
    is_full: bool,
}

impl Model for ByteBuffer {
    ghost use Rattle.std.specs.Prelude.{ℕ, List, Option, Some, None, if◌then◌else◌};

    ghost Value = { Option (List ℕ) };

    ghost view = { λ b. if b.is_full then None else Some b.bytes.items };
}

impl ByteBuffer {
    /// No bytes.
    pub(crate) fn new(alloc: Global) -> ByteBuffer
        ensures { result ≡ Some [] }
    {
        ByteBuffer {
            bytes: Vec::new(alloc),
            is_full: false,
        }
    }

    /// How many bytes there are.
    pub(crate) fn len(&self) -> u64
        ensures { (bytes : List ℕ) → self.now ≡ Some bytes → result ≡ length bytes }
    {
        self.bytes.len() as u64
    }

    /// Adds the bytes.
    pub(crate) fn put(&mut self, bytes: &[u8])
        ensures { IsAdded self.old bytes.now self.new }
    {
        if self.bytes.extend_from_slice(bytes).is_err() {
            self.is_full = true;
        }
    }

    // Adds a byte.
    fn put_byte(&mut self, byte: u8)
        ensures { IsAdded self.old (byte ∷ []) self.new }
    {
        if self.bytes.push(byte).is_err() {
            self.is_full = true;
        }
    }

    /// Adds so many zeros.
    pub(crate) fn put_zeros(&mut self, count: u64)
        ensures { IsAdded self.old (replicate count 0) self.new }
    {
        match self.bytes.len().checked_add(count as usize) {
            Some(end) => {
                if self.bytes.resize(end, 0).is_err() {
                    self.is_full = true;
                }
            }
            None => self.is_full = true,
        }
    }

    /// Adds the number in so many bytes, the low byte first.
    pub(crate) fn put_number(&mut self, width: u64, value: u64)
        ensures { IsAdded self.old (bytes_of_number width value) self.new }
    {
        let mut rest = value;
        for _place in 0..width {
            self.put_byte((rest % 256) as u8);
            rest /= 256;
        }
    }

    /// So many bytes: those that were added, and zeros after them. `AllocError` where memory ran out.
    pub(crate) fn finish(self, size: u64) -> Result<Vec<u8>, AllocError>
        ensures { IfOk result (λ v. (bytes : List ℕ) × (self ≡ Some bytes) ×
            (v.items ≡ take size (padded size bytes))) }
    {
        let ByteBuffer { bytes, is_full } = self;
        if is_full {
            return Err(AllocError);
        }
        let mut bytes = bytes;
        bytes.resize(size as usize, 0)?;
        Ok(bytes)
    }
}

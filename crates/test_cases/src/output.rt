// Text that is written piece by piece.

use std::alloc::{AllocError, Global};

/// Text that is written piece by piece. Once memory runs out it takes nothing more, and `finish` tells of it.
#[derive(Drop)]
pub struct Output {
    text: String,
    is_full: bool,
}

impl Output {
    /// No text.
    pub fn new(alloc: Global) -> Output {
        Output {
            text: String::new(alloc),
            is_full: false,
        }
    }

    /// Whether nothing was written.
    pub fn is_empty(&self) -> bool {
        self.text.is_empty()
    }

    /// Adds the text.
    pub fn put(&mut self, text: &str) {
        if self.text.push_str(text).is_err() {
            self.is_full = true;
        }
    }

    /// Adds each byte as the character of its number.
    pub fn put_bytes(&mut self, bytes: &[u8]) {
        for byte in bytes {
            if self.text.push(char::from(*byte)).is_err() {
                self.is_full = true;
            }
        }
    }

    /// Adds the text so many times.
    pub fn put_times(&mut self, times: usize, text: &str) {
        for _ in 0..times {
            self.put(text);
        }
    }

    /// Adds the number in decimal digits.
    pub fn put_number(&mut self, number: u64) {
        self.put(itoa::Buffer::new().format(number));
    }

    /// Adds the number in decimal digits, with its sign.
    pub fn put_signed(&mut self, number: i64) {
        self.put(itoa::Buffer::new().format(number));
    }

    /// Adds the text, with this before it if it isn't the first.
    pub fn put_after(&mut self, before: &str, text: &str) {
        if !self.text.is_empty() {
            self.put(before);
        }
        self.put(text);
    }

    /// What was written.
    pub fn as_str(&self) -> &str {
        self.text.as_str()
    }

    /// What was written, where memory sufficed.
    pub fn finish(self) -> Result<String, AllocError> {
        if self.is_full {
            return Err(AllocError);
        }
        Ok(self.text)
    }
}

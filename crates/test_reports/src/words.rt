// The words of a line.

use hex::{FromHexError, decode};
use std::alloc::{AllocError, Global};

/// The words of a text.
pub fn words_of<'a>(alloc: Global, text: &'a str) -> Result<Vec<&'a str>, AllocError> {
    let mut words = Vec::new(alloc);
    for word in text.split_whitespace() {
        words.push(word)?;
    }
    Ok(words)
}

/// A number in decimal digits, in hexadecimal ones after `0x`, or below 0.
pub fn number(word: &str) -> Option<u64> {
    if let Some(digits) = word.strip_prefix("0x") {
        return u64::from_str_radix(digits, 16).ok();
    }
    if word.starts_with('-') {
        return Some(word.parse::<i64>().ok()?.cast_unsigned());
    }
    word.parse().ok()
}

/// A number of 32 bits.
pub fn count(word: &str) -> Option<u32> {
    word.parse().ok()
}

/// The numbers that the words are; `None` where one is none.
pub fn numbers_of(alloc: Global, words: &[&str]) -> Result<Option<Vec<u64>>, AllocError> {
    let mut numbers = Vec::new(alloc);
    for word in words {
        let Some(number) = number(word) else {
            return Ok(None);
        };
        numbers.push(number)?;
    }
    Ok(Some(numbers))
}

/// The bytes that hexadecimal digits spell, of `-` none; `None` where the word is neither.
pub fn bytes_of(alloc: Global, word: &str) -> Result<Option<Vec<u8>>, AllocError> {
    if word == "-" {
        return Ok(Some(Vec::new(alloc)));
    }
    match decode(alloc, word) {
        Ok(bytes) => Ok(Some(bytes)),
        Err(FromHexError::OutOfMemory) => Err(AllocError),
        Err(_) => Ok(None),
    }
}

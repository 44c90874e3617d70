// The words of a call.

use crate::error::LineError;
use marks::Side;
use std::alloc::Global;

/// A word of a call: a number, the side whose code makes it, or whether a region is to be written.
#[derive(Clone, Copy)]
pub enum Word {
    Number(u64),
    Side(Side),
    Write(bool),
}

/// A number in decimal digits, or in hexadecimal ones after `0x`.
pub fn number(text: &str) -> Option<u64> {
    match text.strip_prefix("0x") {
        Some(digits) => u64::from_str_radix(digits, 16).ok(),
        None => text.parse().ok(),
    }
}

/// A number at a turn: `A+B` is A at the first one, and B more at each that follows.
pub fn number_at(text: &str, turn: u64) -> Option<u64> {
    let Some((first, step)) = text.split_once('+') else {
        return number(text);
    };
    let step = number(step)?;
    Some(number(first)?.wrapping_add(step.wrapping_mul(turn)))
}

fn word_at(text: &str, turn: u64) -> Option<Word> {
    match text {
        "replay" => Some(Word::Side(Side::Replay)),
        "system" => Some(Word::Side(Side::System)),
        "in" => Some(Word::Write(false)),
        "out" => Some(Word::Write(true)),
        _ => Some(Word::Number(number_at(text, turn)?)),
    }
}

/// The words of a text at a turn, where each is one.
pub fn words_at(alloc: Global, text: &str, turn: u64) -> Result<Vec<Word>, LineError> {
    let mut words = Vec::new(alloc);
    for part in text.split_whitespace() {
        let Some(word) = word_at(part, turn) else {
            return Err(LineError::NoForm);
        };
        words.push(word)?;
    }
    Ok(words)
}

/// The numbers that words are, where each is one.
pub fn numbers_of(alloc: Global, words: &[Word]) -> Result<Vec<u64>, LineError> {
    let mut numbers = Vec::new(alloc);
    for word in words {
        let Word::Number(number) = word else {
            return Err(LineError::NoForm);
        };
        numbers.push(*number)?;
    }
    Ok(numbers)
}

/// The bytes that words are, where each is a number below 256.
pub fn bytes_of(alloc: Global, words: &[Word]) -> Result<Vec<u8>, LineError> {
    let mut bytes = Vec::new(alloc);
    for word in words {
        match word {
            Word::Number(byte) if *byte < 256 => bytes.push(*byte as u8)?,
            _ => return Err(LineError::NoForm),
        }
    }
    Ok(bytes)
}

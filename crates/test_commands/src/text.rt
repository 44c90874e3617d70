//! Bytes as a case file spells them.

use crate::fault::Fault;
use hex::{FromHexError, decode};
use std::alloc::{AllocError, Global};

/// Adds a text.
pub fn put(to: &mut Vec<u8>, text: &str) -> Result<(), Fault> {
    to.extend_from_slice(text.as_bytes())?;
    Ok(())
}

/// Adds a text and a line end.
pub fn put_line(to: &mut Vec<u8>, text: &str) -> Result<(), Fault> {
    to.extend_from_slice(text.as_bytes())?;
    to.push(b'\n')?;
    Ok(())
}

/// Adds a text so many times. `#` in it is the number of the time, from 0.
pub fn put_times(alloc: Global, to: &mut Vec<u8>, count: usize, text: &str) -> Result<(), Fault> {
    let Some((before, after)) = text.split_once('#') else {
        return put_same(to, count, text);
    };
    for number in 0..count {
        let one = format!(in alloc; "{before}{number}{after}")?;
        put(to, one.as_str())?;
    }
    Ok(())
}

/// Adds a text so many times.
fn put_same(to: &mut Vec<u8>, count: usize, text: &str) -> Result<(), Fault> {
    for _ in 0..count {
        put(to, text)?;
    }
    Ok(())
}

/// The bytes that two hexadecimal digits each spell.
fn bytes_of(alloc: Global, digits: &str) -> Result<Vec<u8>, Fault> {
    match decode(alloc, digits) {
        Ok(bytes) => Ok(bytes),
        Err(FromHexError::OutOfMemory) => Err(Fault::Memory),
        Err(_) => Err(Fault::NoForm),
    }
}

/// Adds the bytes of several words of hexadecimal digits.
pub fn put_hex(alloc: Global, to: &mut Vec<u8>, words: &str) -> Result<(), Fault> {
    for word in words.split(' ') {
        let bytes = bytes_of(alloc, word)?;
        to.extend_from_slice(&bytes)?;
    }
    Ok(())
}

/// Puts the bytes of several words of hexadecimal digits in the place of those from a place on.
pub fn set(alloc: Global, to: &mut Vec<u8>, place: usize, words: &str) -> Result<(), Fault> {
    let mut bytes = Vec::new(alloc);
    put_hex(alloc, &mut bytes, words)?;
    if place > to.len() || bytes.len() > to.len() - place {
        return Err(Fault::NoPlace);
    }
    to[place..place + bytes.len()].copy_from_slice(&bytes);
    Ok(())
}

/// Keeps so many bytes.
pub fn cut(to: &mut Vec<u8>, length: usize) -> Result<(), Fault> {
    if length > to.len() {
        return Err(Fault::NoPlace);
    }
    to.truncate(length);
    Ok(())
}

/// The words of a command line. `""` is the empty word.
pub fn words_of(alloc: Global, line: &str) -> Result<Vec<String>, AllocError> {
    let mut words = Vec::new(alloc);
    if line.is_empty() {
        return Ok(words);
    }
    for word in line.split(' ') {
        let word = if word == "\"\"" { "" } else { word };
        words.push(String::from_str(alloc, word)?)?;
    }
    Ok(words)
}

//! Pieces of bytes.

ghost use Rattle.std.specs.Prelude.{◌≡◌, ◌<◌, ◌≤◌, Some, None};
ghost use Rattle.sys_script_lines.specs.Each.{each};
ghost use Rattle.sys_script_lines.specs.Pieces.{hex_byte, hex_bytes, hex_digit, piece, with_piece};
ghost use Rattle.sys_script_lines.specs.Says.{Says};
ghost use Rattle.sys_script_lines.specs.Parts.{parts};

use crate::cut::cut_far;
use crate::error::Wrong;
use run_events::Bytes;
use std::alloc::Global;
use system_side::AnswersSoFar;

/// The value of a hexadecimal digit in lower case; 16 where the byte is none, and no `Option`, so that it is made without a branch. Digits
/// come in no order, and branches on them are mispredicted: so reading pieces takes half of the time.
#[inline(always)]
fn hex_value(byte: u8) -> u8
    ensures digit { result < 16 → hex_digit byte ≡ Some result }
    ensures none { 16 ≤ result → hex_digit byte ≡ None }
{
    let digit = byte.wrapping_sub(b'0');
    let letter = byte.wrapping_sub(b'a');
    let of_letter = if letter < 6 { letter + 10 } else { 16 };
    if digit < 10 { digit } else { of_letter }
}

/// The byte that two digits spell, the high one first.
#[inline(always)]
fn hex_byte(high: u8, low: u8) -> Option<u8>
    ensures { result ≡ hex_byte high low }
{
    let high = hex_value(high);
    let low = hex_value(low);
    if high < 16 && low < 16 {
        Some(high * 16 + low)
    } else {
        None
    }
}

/// The bytes that the digits spell, each by two of them.
#[inline(never)]
fn hex_bytes(alloc: Global, digits: &[u8]) -> Result<Vec<u8>, Wrong>
    ensures { Says (λ v. v.items) result (hex_bytes digits.now) }
{
    let mut bytes = Vec::with_capacity(alloc, digits.len() / 2)?;
    let mut rest = digits;
    while let [high, low, after @ ..] = rest {
        let Some(byte) = hex_byte(*high, *low) else {
            return Err(Wrong::Text);
        };
        bytes.push_reserved(byte);
        rest = after;
    }
    if rest.is_empty() {
        Ok(bytes)
    } else {
        Err(Wrong::Text)
    }
}

/// The bytes of one piece: hexadecimal digits, or `-` for none.
fn piece(alloc: Global, word: &[u8]) -> Result<Vec<u8>, Wrong>
    ensures { Says (λ v. v.items) result (piece word.now) }
{
    match word {
        [] => Err(Wrong::Text),
        [b'-'] => Ok(Vec::new(alloc)),
        _ => hex_bytes(alloc, word),
    }
}

/// Adds the piece that a word is to those of an answer.
#[inline(always)]
fn add_piece(alloc: Global, answers: &mut AnswersSoFar, word: &[u8]) -> Result<(), Wrong>
    ensures added { Says (λ _. answers.new.begun) result (with_piece answers.old.begun (piece word.now)) }
    ensures same { answers.new.ended ≡ answers.old.ended }
{
    let bytes = piece(alloc, word)?;
    answers.add(Bytes::from(bytes))?;
    Ok(())
}

/// Begins an answer with the pieces of several words.
pub(crate) fn pieces(alloc: Global, answers: &mut AnswersSoFar, words: &[u8]) -> Result<(), Wrong>
    ensures pieces { Says (λ _. answers.new.begun) result (each piece (parts 32 words.now)) }
    ensures same { answers.new.ended ≡ answers.old.ended }
{
    answers.begin();
    let mut rest = words;
    while let Some((word, after)) = cut_far(rest, b' ') {
        add_piece(alloc, answers, word)?;
        rest = after;
    }
    add_piece(alloc, answers, rest)
}

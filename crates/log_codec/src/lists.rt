//! Reads the lists of a record, each after the byte that counts its items: arguments, keys, and what came back.

ghost use Rattle.std.specs.Prelude.{◌≡◌};
ghost use Rattle.std.specs.Int.{w64};
ghost use Rattle.byte_format.specs.Reading.{Gives, number_at, list_at, counted_at};
ghost use Rattle.byte_format.specs.Numbers.{fixed};
ghost use Rattle.log_codec.specs.Reading.{key_at, piece_at};

use crate::fields::{key_at, piece_at};
use byte_format::{Stop, count_at, u64_at};
use run_events::{Bytes, KeyMark, Marks, Pieces, Words};
use std::alloc::Global;

fn words_at(alloc: Global, count: u8, bytes: &[u8]) -> Result<(Vec<u64>, &[u8]), Stop>
    ensures { Gives (λ x. (x.0.items, x.1.now)) result (list_at (number_at w64) count bytes.now) }
{
    let mut words = Vec::with_capacity(alloc, count as usize)?;
    let mut rest = bytes;
    for _ in 0..count {
        let (word, after) = u64_at(rest)?;
        words.push(word)?;
        rest = after;
    }
    Ok((words, rest))
}

fn marks_at(alloc: Global, count: u8, bytes: &[u8]) -> Result<(Vec<KeyMark>, &[u8]), Stop>
    ensures { Gives (λ x. (x.0.items, x.1.now)) result (list_at (key_at fixed) count bytes.now) }
{
    let mut marks = Vec::with_capacity(alloc, count as usize)?;
    let mut rest = bytes;
    for _ in 0..count {
        let (mark, after) = key_at(rest)?;
        marks.push(mark)?;
        rest = after;
    }
    Ok((marks, rest))
}

fn pieces_at(alloc: Global, count: u8, bytes: &[u8]) -> Result<(Vec<Bytes>, &[u8]), Stop>
    ensures { Gives (λ x. (x.0.items, x.1.now)) result (list_at (piece_at fixed) count bytes.now) }
{
    let mut pieces = Vec::with_capacity(alloc, count as usize)?;
    let mut rest = bytes;
    for _ in 0..count {
        let (piece, after) = piece_at(alloc, rest)?;
        pieces.push(piece)?;
        rest = after;
    }
    Ok((pieces, rest))
}

/// The arguments of a call, at most 8.
#[tactic(auto, unfolding(byte_format::specs::Reading::counted_at))]
pub fn args_at(alloc: Global, bytes: &[u8]) -> Result<(Words, &[u8]), Stop>
    ensures { Gives (λ x. (x.0, x.1.now)) result (counted_at (number_at w64) 8 bytes.now) }
{
    let (count, rest) = count_at(bytes, 8)?;
    let (words, rest) = words_at(alloc, count, rest)?;
    let words = Words::from_slice(alloc, &words)?;
    Ok((words, rest))
}

/// The keys of an event, at most 16.
#[tactic(auto, unfolding(byte_format::specs::Reading::counted_at))]
pub fn keys_at(alloc: Global, bytes: &[u8]) -> Result<(Marks, &[u8]), Stop>
    ensures { Gives (λ x. (x.0, x.1.now)) result (counted_at (key_at fixed) 16 bytes.now) }
{
    let (count, rest) = count_at(bytes, 16)?;
    let (marks, rest) = marks_at(alloc, count, rest)?;
    let marks = Marks::from_vec(alloc, marks)?;
    Ok((marks, rest))
}

/// The bytes that came back from a call, at most 9 pieces.
#[tactic(auto, unfolding(byte_format::specs::Reading::counted_at))]
pub fn outs_at(alloc: Global, bytes: &[u8]) -> Result<(Pieces, &[u8]), Stop>
    ensures { Gives (λ x. (x.0, x.1.now)) result (counted_at (piece_at fixed) 9 bytes.now) }
{
    let (count, rest) = count_at(bytes, 9)?;
    let (pieces, rest) = pieces_at(alloc, count, rest)?;
    let pieces = Pieces::from_vec(alloc, pieces)?;
    Ok((pieces, rest))
}

//! Copies of the lists that marks and records hold.

ghost use Rattle.std.specs.Prelude.{◌≡◌, ◌++◌, IfOk, OnOk};
ghost use Rattle.marks.specs.Ranges.{piece_bytes};

use reference_recorder_marks::{Piece, WordList};
use run_events::{Bytes, Marks, Words};
use std::alloc::{AllocError, Global};

/// A copy of values, as an event has them.
pub fn copy_words(alloc: Global, words: &WordList) -> Result<Words, AllocError>
    ensures { IfOk result (λ copy. copy ≡ words.now) }
{
    Words::from_slice(alloc, words.as_slice())
}

/// A copy of bytes.
pub fn copy_bytes(alloc: Global, bytes: &Bytes) -> Result<Bytes, AllocError>
    ensures { IfOk result (λ copy. copy ≡ bytes.now) }
{
    let items = Vec::from_slice(alloc, bytes.as_slice())?;
    Ok(Bytes::from(items))
}

/// A copy of keys with their tickets.
pub fn copy_marks(alloc: Global, marks: &Marks) -> Result<Marks, AllocError>
    ensures { IfOk result (λ copy. copy ≡ marks.now) }
{
    let keys = marks.unpacked();
    let items = Vec::from_slice(alloc, keys.as_slice())?;
    Marks::from_vec(alloc, items)
}

fn copy_piece(alloc: Global, piece: &Piece) -> Result<Bytes, AllocError>
    ensures { IfOk result (λ copy. copy ≡ piece.now.bytes) }
{
    copy_bytes(alloc, &piece.bytes)
}

/// Adds copies of the bytes of pieces.
pub fn add_pieces(alloc: Global, to: &mut Vec<Bytes>, pieces: &[Piece]) -> Result<(), AllocError>
    ensures { OnOk result (to.new.items ≡ to.old.items ++ piece_bytes pieces.now) }
{
    for piece in pieces {
        let copy = copy_piece(alloc, piece)?;
        to.push(copy)?;
    }
    Ok(())
}

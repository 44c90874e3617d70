//! The pieces that an answer writes.

ghost use Rattle.std.specs.Prelude.{◌≡◌, ◌++◌, IfOk, OnOk};
ghost use Rattle.whole_runs.specs.Below.{To, piece_for, pieces_for as pieces_for_in};
ghost use Rattle.reference_recorder_targets.specs.Places.{target_of, targets_of};

use crate::places::Target;
use marks::Range;
use reference_recorder_marks::Piece;
use run_events::Bytes;
use std::alloc::{AllocError, Global};

/// The pieces that are written: the answer's bytes for each target that is a region. Targets and answers go together in their order.
///
/// `AllocError` where there is no memory.
pub fn pieces_for(
    alloc: Global,
    targets: &[Target],
    answers: &[Bytes],
) -> Result<Vec<Piece>, AllocError>
    ensures { IfOk result (λ ps. ps.items ≡ pieces_for_in (targets_of targets.now) answers.now) }
{
    let mut pieces = Vec::new(alloc);
    let count = targets.len().min(answers.len());
    for place in 0..count {
        put_piece(alloc, &mut pieces, targets[place], &answers[place])?;
    }
    Ok(pieces)
}

// Puts the piece after the others that is written where these bytes go to the target.
fn put_piece(
    alloc: Global,
    pieces: &mut Vec<Piece>,
    target: Target,
    bytes: &Bytes,
) -> Result<(), AllocError>
    ensures { OnOk result (pieces.new.items ≡ pieces.old.items ++ piece_for (target_of target) bytes.now) }
{
    match target {
        Target::To(range) => put_bytes(alloc, pieces, range, bytes),
        Target::Nowhere => Ok(()),
        Target::Missing => Ok(()),
    }
}

// Puts the piece of the range with these bytes after the others.
fn put_bytes(
    alloc: Global,
    pieces: &mut Vec<Piece>,
    range: Range,
    bytes: &Bytes,
) -> Result<(), AllocError>
    ensures { OnOk result (pieces.new.items ≡ pieces.old.items ++ piece_for (To range) bytes.now) }
{
    let copy = Vec::from_slice(alloc, bytes.as_slice())?;
    pieces.push(Piece {
        range,
        bytes: Bytes::from(copy),
    })?;
    Ok(())
}

//! Pieces of memory.

ghost use Rattle.std.specs.Prelude.{◌≡◌, length, map, IfOk};
ghost use Rattle.marks.specs.declared.range.Range.{Range as Shown};
ghost use Rattle.reference_recorder_call_events.specs.Memory.{AreRead, IsPieceOf, memory_of};

use crate::memory::{Memory, read};
use marks::Range;
use reference_recorder_marks::Piece;
use std::alloc::{AllocError, Global};

/// A piece of each range, with so many of its first bytes as are used.
///
/// `AllocError` where there is no memory for them.
pub fn pieces(
    alloc: Global,
    memory: Memory<'_>,
    ranges: &[Range],
    used: &[u64],
) -> Result<Vec<Piece>, AllocError>
    requires { length used.now ≡ length ranges.now }
    ensures { IfOk result (λ ps. AreRead (memory_of memory.entry) ranges.now used.now ps.items) }
{
    let mut pieces = Vec::new(alloc);
    for (i, range) in ranges.iter().enumerate() {
        let piece = piece(alloc, memory, *range, used[i])?;
        pieces.push(piece)?;
    }
    Ok(pieces)
}

/// The piece of a range with so many of its first bytes.
///
/// `AllocError` where there is no memory for them.
pub fn piece(
    alloc: Global,
    memory: Memory<'_>,
    range: Range,
    used: u64,
) -> Result<Piece, AllocError>
    ensures { IfOk result (IsPieceOf (memory_of memory.entry) range used) }
{
    let bytes = read(alloc, memory, range.addr, used)?;
    Ok(Piece { range, bytes })
}

/// How many bytes each of the ranges has.
///
/// `AllocError` where there is no memory for the numbers.
pub fn sizes(alloc: Global, ranges: &[Range]) -> Result<Vec<u64>, AllocError>
    ensures { IfOk result (λ ns. ns.items ≡ map (λ (r : Shown). r.len) ranges.now) }
{
    ranges.iter().map(|range| range.len).collect(alloc)
}

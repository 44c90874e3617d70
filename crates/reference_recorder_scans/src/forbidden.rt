//! The first byte of a range that code below the cut may not touch.

ghost use Rattle.std.specs.Prelude.{◌≡◌, true, IfOk};
ghost use Rattle.marks.specs.Places.{is_replay};
ghost use Rattle.marks.specs.Ranges.{IsFirstIn, IsLeastIn};
ghost use Rattle.whole_runs.specs.World.{World};
ghost use Rattle.whole_runs.specs.Below.{IsForbidden};
ghost use Rattle.reference_recorder_marks.specs.Marks.{past};

use marks::Range;
use memory_map::{Placed, REPLAY_MEMORY};
use reference_recorder_marks::Mark;
use reference_recorder_rights::is_forbidden;
use std::alloc::{AllocError, Global};

/// The first byte of the range in memory above the cut that code of the thread below it may not touch, to write it or only to read it,
/// after these marks of a run, the oldest first.
///
/// `AllocError` where there is no memory.
pub fn first_forbidden(
    alloc: Global,
    placed: &Placed,
    marks: &[Mark],
    thread: u8,
    write: bool,
    range: Range,
) -> Result<Option<u64>, AllocError>
    ensures { (w : World) → w.laid.placed ≡ placed.now → IfOk result
        (IsFirstIn range (IsForbidden w (past marks.now) thread write)) }
{
    match first_above(range) {
        Some(first) => forbidden_from(alloc, placed, marks, thread, write, range, first),
        None => Ok(None),
    }
}

// The first byte of the range that lies above the cut.
fn first_above(range: Range) -> Option<u64>
    ensures { IsFirstIn range (λ x. is_replay x ≡ true) result }
{
    range.first_common(REPLAY_MEMORY)
}

// The first byte that may not be touched, where this is the first one above the cut.
fn forbidden_from(
    alloc: Global,
    placed: &Placed,
    marks: &[Mark],
    thread: u8,
    write: bool,
    range: Range,
    first: u64,
) -> Result<Option<u64>, AllocError>
    requires { IsLeastIn range (λ x. is_replay x ≡ true) first }
    ensures { (w : World) → w.laid.placed ≡ placed.now → IfOk result
        (IsFirstIn range (IsForbidden w (past marks.now) thread write)) }
{
    for addr in first..REPLAY_MEMORY.addr + REPLAY_MEMORY.len {
        if !range.has(addr) {
            return Ok(None);
        }
        if is_forbidden(alloc, placed, marks, thread, write, addr)? {
            return Ok(Some(addr));
        }
    }
    Ok(None)
}

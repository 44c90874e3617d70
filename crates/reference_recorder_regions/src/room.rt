//! Where a thread's next frame lies on a side, after a list of marks.

ghost use Rattle.std.specs.Prelude.{◌≡◌, ◌<◌, ◌^◌, IfOk, MatchOption};
ghost use Rattle.marks.specs.Places.{thread_count};
ghost use Rattle.replay_runs.specs.Threads.{end_of};
ghost use Rattle.whole_runs.specs.World.{World};
ghost use Rattle.whole_runs.specs.Sides.{HasRoomOn, place_on};
ghost use Rattle.reference_recorder_marks.specs.Marks.{past};
ghost use Rattle.reference_recorder_regions.specs.Room.{HasRoomIn};

use crate::frames::{end_of, frames_on};
use marks::{Range, Side, stack};
use reference_recorder_marks::Mark;
use std::alloc::{AllocError, Global};

/// Where a frame of so many bytes lies next on the thread's stack on the side; `None` where it has no room, or is one too many.
/// The marks stand with the oldest first.
pub fn room_on(
    alloc: Global,
    marks: &[Mark],
    side: Side,
    thread: u8,
    size: u64,
) -> Result<Option<u64>, AllocError>
    requires { thread < thread_count }
    ensures { (w : World) → IfOk result (λ at. MatchOption at
        (HasRoomOn w side thread (past marks.now) size → ⊥)
        (λ place. HasRoomOn w side thread (past marks.now) size ×
        (place ≡ place_on w side thread (past marks.now)))) }
{
    let frames = frames_on(alloc, marks, side, thread)?;
    Ok(room_in(stack(side, thread), &frames, size))
}

// The same of a stack that begins there and has these frames, the innermost first.
fn room_in(base: u64, frames: &[Range], size: u64) -> Option<u64>
    requires { base < 2 ^ 32 }
    ensures { MatchOption result (HasRoomIn base frames.now size → ⊥)
        (λ place. HasRoomIn base frames.now size × (place ≡ end_of base frames.now)) }
{
    let place = end_of(base, frames);
    let end = u128::from(base) + 0x1_0000;
    if place <= end && u128::from(size) <= end - place && frames.len() < 256 {
        Some(place as u64)
    } else {
        None
    }
}

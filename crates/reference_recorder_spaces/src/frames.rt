//! Frames.

ghost use Rattle.std.specs.Prelude.{◌<◌, ℕ, List};
ghost use Rattle.marks.specs.Marks.{Enter, Leave};
ghost use Rattle.memory_map.specs.declared.areas.TheConstants.{THREADS};
ghost use Rattle.reference_recorder_spaces.specs.Next.{IsDone, IsNext};

use crate::bytes::put;
use marks::Side;
use space_memory::Spaces;

/// Does an Enter of a frame with these bytes, at the place where the thread's next frame lies.
pub fn enter(spaces: &mut Spaces, thread: u8, bytes: &[u8])
    requires in_range { thread < THREADS }
    requires next { (func : ℕ) × (args : List ℕ) × (at : ℕ) ×
        IsNext spaces.old thread (Enter func args at bytes.now) }
    ensures { (func : ℕ) (args : List ℕ) (at : ℕ) →
        IsDone spaces.old thread (Enter func args at bytes.now) spaces.new }
{
    match spaces.enter(Side::Replay, thread, bytes.len() as u64) {
        Ok(addr) => put(spaces, Side::Replay, thread, addr, bytes),
        Err(_) => unreachable!("the frame has room"),
    }
}

/// Does a Leave of the thread's innermost frame.
pub fn leave(spaces: &mut Spaces, thread: u8)
    requires in_range { thread < THREADS }
    requires frame { (at : ℕ) × (size : ℕ) × IsNext spaces.old thread (Leave at size) }
    ensures { (at size : ℕ) → IsDone spaces.old thread (Leave at size) spaces.new }
{
    match spaces.leave(Side::Replay, thread) {
        Ok(_) => (),
        Err(_) => unreachable!("no byte of the frame is pending"),
    }
}

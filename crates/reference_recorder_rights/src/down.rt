//! Which bytes are handed down to a thread.

ghost use Rattle.std.specs.Prelude.{◌≡◌, ◌↔◌, ◌&&◌, ◌||◌, not, IfOk, IsTrue};
ghost use Rattle.space_memory_laws.specs.Rights.{IsHandedDown};
ghost use Rattle.whole_runs.specs.World.{World, begin};
ghost use Rattle.whole_runs.specs.Sides.{seen};
ghost use Rattle.reference_recorder_marks.specs.Marks.{past};
ghost use Rattle.reference_recorder_rights.specs.Rights.{any_holds, any_reads};

use crate::opens::{Flags, any_holds, any_reads, open_flags};
use crate::prepared::is_prepared;
use reference_recorder_marks::Mark;
use std::alloc::{AllocError, Global};

/// Whether code of the thread below the cut may touch the byte at the address, to write it or only to read it, so far as the
/// thread's open calls and the keys in use hand it down. The marks stand with the oldest first.
pub fn is_handed_down(
    alloc: Global,
    marks: &[Mark],
    thread: u8,
    write: bool,
    addr: u64,
) -> Result<bool, AllocError>
    ensures { (w : World) → IfOk result (λ b. IsTrue b ↔
        IsHandedDown (begin w) (seen (past marks.now)) thread write addr) }
{
    let calls = open_flags(alloc, marks, thread, addr)?;
    Ok(is_down(&calls, write, is_prepared(marks, addr)))
}

// The same of the open calls and the keys in use.
fn is_down(calls: &[Flags], write: bool, prepared: bool) -> bool
    ensures { result ≡ (any_holds calls.now || ((not write && any_reads calls.now) || prepared)) }
{
    let holds = any_holds(calls);
    let reads = any_reads(calls);
    holds || ((!write && reads) || prepared)
}

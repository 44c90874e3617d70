//! Room for frames.

ghost use Rattle.std.specs.Prelude.{◌<◌, List, IfOk};
ghost use Rattle.marks.specs.Places.{thread_count};
ghost use Rattle.marks.specs.Marks.{Mark as Shown};
ghost use Rattle.replay_runs.specs.Checks.{Done};
ghost use Rattle.whole_runs.specs.World.{World, begin};
ghost use Rattle.whole_runs.specs.Sides.{seen};
ghost use Rattle.whole_runs.specs.Tests.{full_check};
ghost use Rattle.reference_recorder_findings.specs.Findings.{IsFound};
ghost use Rattle.reference_recorder_uses.specs.Pasts.{IsPastOf};
ghost use Rattle.reference_recorder_uses.specs.Checks.{frame_checks};

use crate::past::Past;
use crate::races::race;
use marks::{FaultKind, Range, Side};
use reference_recorder_findings::Finding;
use reference_recorder_regions::room_on;
use std::alloc::{AllocError, Global};

/// What is found where a frame of so many bytes is taken above the cut: it has room on the thread's stack, and its bytes are written.
///
/// `AllocError` where there is no memory.
pub fn entered(
    alloc: Global,
    run: Past<'_>,
    thread: u8,
    size: u64,
) -> Result<Option<Finding>, AllocError>
    requires { thread < thread_count }
    ensures { (w : World) (p : List Shown) → IsPastOf w p run.entry →
        IfOk result (IsFound (frame_checks (begin w) (seen p) thread size)) }
{
    match room_on(alloc, run.marks, Side::Replay, thread, size)? {
        Some(addr) => race(alloc, run, thread, true, Range { addr, len: size }),
        None => Ok(Some(Finding::Fault(FaultKind::StackFull))),
    }
}

/// What is found where a frame of so many bytes is taken below it.
///
/// `AllocError` where there is no memory.
pub fn full(
    alloc: Global,
    run: Past<'_>,
    thread: u8,
    size: u64,
) -> Result<Option<Finding>, AllocError>
    requires { thread < thread_count }
    ensures { (w : World) (p : List Shown) → IsPastOf w p run.entry →
        IfOk result (IsFound (full_check w p thread size)) }
{
    match room_on(alloc, run.marks, Side::System, thread, size)? {
        Some(_) => Ok(None),
        None => Ok(Some(Finding::Fault(FaultKind::StackFull))),
    }
}

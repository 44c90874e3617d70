//! The threads after the marks of a run.

ghost use Rattle.std.specs.Prelude.{IfOk};
ghost use Rattle.recorder_state.specs.Inputs.{world_of};
ghost use Rattle.reference_recorder_threads.specs.Telling.{AreThreadsAfter, IsPast};

use crate::tell::tell;
use recorder_state::{Inputs, main_of};
use recorder_threads::Threads;
use reference_recorder_marks::Mark;
use std::alloc::{AllocError, Global};

/// The threads after these marks of a run, the oldest first: each is begun, and told of its own marks one after the other.
///
/// `AllocError` where there is no memory.
pub fn threads_after(
    alloc: Global,
    inputs: Inputs<'_>,
    marks: &[Mark],
) -> Result<Threads, AllocError>
    requires { IsPast (world_of inputs) marks.now }
    ensures { IfOk result (AreThreadsAfter (world_of inputs.entry) marks.now) }
{
    let mut threads = Threads::new(alloc, inputs.code, main_of(inputs.code))?;
    for mark in marks {
        tell(&mut threads, alloc, inputs, mark)?;
    }
    Ok(threads)
}

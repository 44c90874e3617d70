//! The end of a run, from all its marks.

ghost use Rattle.std.specs.Prelude.{◌≡◌, ◌++◌, IfOk};
ghost use Rattle.std.specs.Option.{option_to_list};
ghost use Rattle.whole_runs.specs.Recorded.{IsRecording};
ghost use Rattle.recorder_state.specs.Inputs.{world_of};
ghost use Rattle.recorder_end.specs.Recorded.{told};
ghost use Rattle.reference_recorder_end.specs.Ends.{IsEnded};

use crate::stops::stops_of;
use crate::told::recorded;
use recorder_end::Recorded;
use recorder_state::Inputs;
use reference_recorder_marks::Mark;
use reference_recorder_spaces::spaces_after;
use reference_recorder_threads::threads_after;
use std::alloc::{AllocError, Global};
use whole_runs::Ending;

/// What is told of a run that makes no more steps after these marks, the oldest first, but ends so. `last` is the mark of the fault
/// that ends it, if one does. Each thread that stands in replay mode gets its Stop.
///
/// `AllocError` where there is no memory.
pub fn finish(
    alloc: Global,
    inputs: Inputs<'_>,
    marks: Vec<Mark>,
    last: Option<Mark>,
    ending: Ending,
) -> Result<Recorded, AllocError>
    requires { IsEnded (world_of inputs) marks.items last ending }
    ensures { IfOk result (λ r. IsRecording (world_of inputs.entry) (told r)) }
{
    let threads = threads_after(alloc, inputs, &marks)?;
    let spaces = spaces_after(alloc, inputs, &marks)?;
    let run = with_last(marks, last)?;
    let stops = stops_of(alloc, inputs, &threads, &run)?;
    let whole = with_all(run, stops)?;
    recorded(alloc, inputs.file.chunk, &whole, spaces, ending)
}

// The marks with one more, if there is one.
fn with_last(marks: Vec<Mark>, last: Option<Mark>) -> Result<Vec<Mark>, AllocError>
    ensures { IfOk result (λ all. all.items ≡ marks.items ++ option_to_list last) }
{
    let mut all = marks;
    if let Some(mark) = last {
        all.push(mark)?;
    }
    Ok(all)
}

// The marks with others after them.
fn with_all(marks: Vec<Mark>, more: Vec<Mark>) -> Result<Vec<Mark>, AllocError>
    ensures { IfOk result (λ all. all.items ≡ marks.items ++ more.items) }
{
    let mut all = marks;
    for stop in more {
        all.push(stop)?;
    }
    Ok(all)
}

//! A recording, from its first step to its end.

ghost use Rattle.std.specs.Prelude.{IfOk};
ghost use Rattle.whole_runs.specs.Fits.{IsFit};
ghost use Rattle.whole_runs.specs.Recorded.{IsRecording};
ghost use Rattle.recorder_state.specs.Inputs.{world_of};
ghost use Rattle.reference_recorder.specs.Recordings.{told, world};
ghost use Rattle.reference_recorder_end.specs.Ends.{IsEnded};

use crate::steps::{Coming, step};
use c_code::Placed;
use c_code_fused::FusedCode;
use recorder_end::Recorded;
use recorder_state::Inputs;
use reference_recorder_end::finish;
use reference_recorder_marks::Mark;
use std::alloc::{AllocError, Global};
use stub_operations::StubSet;
use system_side::SysFile;
use whole_runs::Ending;

/// All that a run does before its Stops, and how it ends.
#[derive(Drop)]
struct Ended {
    /// The marks of its steps, the oldest first.
    marks: Vec<Mark>,
    /// The mark of the fault that ends it, if one does.
    last: Option<Mark>,
    ending: Ending,
}

/// Records the run of a system file over a program, with the places of its objects and what is done at its calls: its log, what it did
/// above the cut, what was printed on either side, and how it ended. What it keeps are its marks alone; each step is found anew from
/// all of them.
///
/// `AllocError` where there is no memory.
pub fn record_run(
    alloc: Global,
    code: &FusedCode,
    placed: &Placed,
    stubs: &StubSet,
    file: &SysFile,
) -> Result<Recorded, AllocError>
    requires fits { IsFit (world code.now placed.now stubs.now file.now) }
    ensures { IfOk result (λ r. IsRecording (world code.now placed.now stubs.now file.now) (told r)) }
{
    let inputs = Inputs {
        code,
        placed,
        stubs,
        file,
    };
    let Ended {
        marks,
        last,
        ending,
    } = run(alloc, inputs)?;
    finish(alloc, inputs, marks, last, ending)
}

// Makes steps until the run ends.
fn run(alloc: Global, inputs: Inputs<'_>) -> Result<Ended, AllocError>
    requires { IsFit (world_of inputs) }
    ensures { IfOk result (λ e. IsEnded (world_of inputs.entry) e.marks.items e.last e.ending) }
{
    let mut marks = Vec::new(alloc);
    'steps: loop {
        match step(alloc, inputs, &marks)? {
            Coming::Mark(mark) => marks.push(mark)?,
            Coming::End { last, ending } => {
                return Ok(Ended {
                    marks,
                    last,
                    ending,
                });
            }
        }
    }
}

//! What is told of a whole run.

ghost use Rattle.std.specs.Prelude.{IfOk};
ghost use Rattle.whole_runs.specs.World.{World};
ghost use Rattle.whole_runs.specs.Recorded.{IsRecording};
ghost use Rattle.recorder_end.specs.Recorded.{told};
ghost use Rattle.reference_recorder_end.specs.Ends.{IsWhole};

use call_inspector_run::Run;
use recorder_end::Recorded;
use reference_recorder_log::{all_records, log_of, replay_output, system_output};
use reference_recorder_marks::Mark;
use run_events::Bytes;
use space_memory::Spaces;
use std::alloc::{AllocError, Global};
use whole_runs::Ending;

/// What is told of a run with these marks, its Stops among them, whose threads put so many records into a chunk of the log.
pub fn recorded(
    alloc: Global,
    chunk: u16,
    marks: &[Mark],
    memory: Spaces,
    ending: Ending,
) -> Result<Recorded, AllocError>
    requires { (w : World) × IsWhole w chunk marks.now memory ending }
    ensures { (w : World) → IsWhole w chunk marks.now memory ending →
        IfOk result (λ r. IsRecording w (told r)) }
{
    let log = log_of(alloc, chunk, marks)?;
    let threads = all_records(alloc, marks)?;
    let output = replay_output(alloc, marks)?;
    let below = system_output(alloc, marks)?;
    let run = Run {
        threads,
        memory,
        output: Bytes::from(output),
    };
    Ok(Recorded {
        log: Bytes::from(log),
        run,
        system_output: Bytes::from(below),
        ending,
    })
}

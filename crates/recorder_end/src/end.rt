//! What is told of a run at its end.

ghost use Rattle.std.specs.Prelude.{◌≡◌, IfOk, length};
ghost use Rattle.whole_runs.specs.World.{World};
ghost use Rattle.whole_runs.specs.Recorded.{IsRecording};
ghost use Rattle.recorder_state.specs.Inputs.{world_of};
ghost use Rattle.recorder_state.specs.Ends.{IsEnded};
ghost use Rattle.recorder_end.specs.Stops.{IsStopping};
ghost use Rattle.recorder_end.specs.Recorded.{told};

use crate::recorded::Recorded;
use crate::stops::stop_threads;
use call_inspector_run::Run;
use recorder_book::Finished;
use recorder_memory::Memory;
use recorder_state::{Inputs, RunState};
use run_events::Bytes;
use space_memory::Spaces;
use std::alloc::{AllocError, Global};
use steps_above_memory::MemoryAbove;
use whole_runs::Ending;

/// What is told of a run that ends so: each thread that stands in replay mode gets its Stop, and the log its end.
///
/// `AllocError` where there is no memory.
pub fn finish(
    state: RunState,
    alloc: Global,
    inputs: Inputs<'_>,
    ending: Ending,
) -> Result<Recorded, AllocError>
    requires { IsEnded (world_of inputs) state ending }
    ensures { IfOk result (λ r. IsRecording (world_of inputs.entry) (told r)) }
{
    let mut state = state;
    stop_threads(&mut state, alloc, inputs, ending)?;
    recorded(state, ending)
}

// What is told of a run whose threads have their Stops.
fn recorded(state: RunState, ending: Ending) -> Result<Recorded, AllocError>
    ensures { (w : World) → IsStopping w state ending (length state.threads) →
        IfOk result (λ r. IsRecording w (told r)) }
{
    let RunState {
        threads: _,
        system: _,
        memory,
        prepared: _,
        stamps: _,
        interface: _,
        book,
        output,
        system_output,
        steps: _,
        known: _,
    } = state;
    let Finished { log, threads } = book.finish()?;
    let run = Run {
        threads,
        memory: spaces_above(memory),
        output: Bytes::from(output),
    };
    Ok(Recorded {
        log,
        run,
        system_output: Bytes::from(system_output),
        ending,
    })
}

// Memory of both sides, without the watch.
fn spaces_above(memory: Memory) -> Spaces
    ensures { result ≡ memory.above.spaces }
{
    let Memory { above } = memory;
    let MemoryAbove { spaces, watch: _ } = above;
    spaces
}

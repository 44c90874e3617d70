//! The Stops of a run that makes no more steps.

ghost use Rattle.std.specs.Prelude.{◌≡◌, ◌+◌, ◌<◌, length, OnOk};
ghost use Rattle.recorder_state.specs.Inputs.{world_of};
ghost use Rattle.recorder_state.specs.Ends.{IsEnded};
ghost use Rattle.recorder_end.specs.Stops.{IsStopping, reason_at};

use recorder_state::{Inputs, RunState};
use run_events::{Event, Reason, Record};
use std::alloc::{AllocError, Global};
use whole_runs::Ending;

/// Adds the Stops of the threads that stand in replay mode, in the order of threads.
pub fn stop_threads(
    state: &mut RunState,
    alloc: Global,
    inputs: Inputs<'_>,
    ending: Ending,
) -> Result<(), AllocError>
    requires { IsEnded (world_of inputs) state.old ending }
    ensures { OnOk result (IsStopping (world_of inputs.entry) state.new ending (length state.new.threads)) }
{
    for thread in 0..state.threads.count() {
        stop_thread(state, alloc, inputs, ending, thread as u8)?;
    }
    Ok(())
}

// Adds the Stop of the thread, if it stands in replay mode. Those of the threads before it were added.
fn stop_thread(
    state: &mut RunState,
    alloc: Global,
    inputs: Inputs<'_>,
    ending: Ending,
    thread: u8,
) -> Result<(), AllocError>
    requires stopping { IsStopping (world_of inputs) state.old ending thread }
    requires started { thread < length state.old.threads }
    ensures stopped { OnOk result (IsStopping (world_of inputs.entry) state.new ending (thread + 1)) }
    ensures threads { state.new.threads ≡ state.old.threads }
{
    if !state
        .threads
        .in_replay_mode(inputs.code, inputs.placed, thread)
    {
        return Ok(());
    }
    let stamp = state.stamps.stamp(alloc, thread, &[])?;
    let entry = Record {
        thread,
        steps: stamp.steps,
        clock: stamp.clock,
        keys: stamp.keys,
        event: Event::Stop {
            reason: reason(ending, thread),
        },
    };
    state.book.add(entry)
}

// Why a run that ends so stops the thread.
fn reason(ending: Ending, thread: u8) -> Reason
    ensures { result ≡ reason_at ending thread }
{
    match ending {
        Ending::Fault {
            kind,
            thread: faulting,
        } => {
            if faulting == thread {
                Reason::Fault(kind)
            } else {
                Reason::Halted
            }
        }
        Ending::Done | Ending::Breach { .. } | Ending::Halted(_) => Reason::Halted,
    }
}

//! The Stops of a run that makes no more steps.

ghost use Rattle.std.specs.Prelude.{◌+◌, ◌<◌, length, IfOk, OnOk};
ghost use Rattle.recorder_state.specs.Inputs.{world_of};
ghost use Rattle.reference_recorder_end.specs.Ends.{AreAtEnd, AreFirstStops, AreStops};

use recorder_state::Inputs;
use recorder_threads::Threads;
use reference_recorder_calls::stop_of;
use reference_recorder_marks::Mark;
use std::alloc::{AllocError, Global};

/// The Stops of the threads that stand in replay mode after these marks, in the order of threads.
pub fn stops_of(
    alloc: Global,
    inputs: Inputs<'_>,
    threads: &Threads,
    run: &[Mark],
) -> Result<Vec<Mark>, AllocError>
    requires { AreAtEnd (world_of inputs) run.now threads.now }
    ensures { IfOk result (λ stops. AreStops (world_of inputs.entry) run.now threads.now stops.items) }
{
    let mut stops = Vec::new(alloc);
    for thread in 0..threads.count() {
        add_stop(&mut stops, inputs, threads, run, thread as u8)?;
    }
    Ok(stops)
}

// Adds the Stop of the thread to those of the threads before it, if it stands in replay mode.
fn add_stop(
    stops: &mut Vec<Mark>,
    inputs: Inputs<'_>,
    threads: &Threads,
    run: &[Mark],
    thread: u8,
) -> Result<(), AllocError>
    requires at_end { AreAtEnd (world_of inputs) run.now threads.now }
    requires started { thread < length threads.now }
    requires before { AreFirstStops (world_of inputs) run.now threads.now thread stops.old.items }
    ensures { OnOk result (AreFirstStops (world_of inputs.entry) run.now threads.now (thread + 1)
        stops.new.items) }
{
    if threads.in_replay_mode(inputs.code, inputs.placed, thread) {
        stops.push(stop_of(run, thread))?;
    }
    Ok(())
}

//! A recording, from its first step to its end.

ghost use Rattle.std.specs.Prelude.{◌≡◌, IfOk};
ghost use Rattle.whole_runs.specs.World.{World, main_of as main_at};
ghost use Rattle.whole_runs.specs.Fits.{IsFit};
ghost use Rattle.whole_runs.specs.Recorded.{IsRecording};
ghost use Rattle.recorder_state.specs.declared.state.RunState.{RunState as States};
ghost use Rattle.recorder_state.specs.Inputs.{world_of};
ghost use Rattle.recorder_state.specs.Stands.{IsReached};
ghost use Rattle.recorder_state.specs.Ends.{IsEnded, IsStopped};
ghost use Rattle.recorder.specs.Recordings.{told, world};

use crate::buffers::Buffers;
use crate::steps::step;
use c_code::Placed;
use c_code_fused::FusedCode;
use recorder_end::{Recorded, finish};
use recorder_state::{Inputs, RunState, Stop, Turn, main_of};
use recorder_stretches::{make_accesses, next_access};
use std::alloc::{AllocError, Global};
use stub_operations::StubSet;
use system_side::SysFile;
use whole_runs::Ending;

/// Records the run of a system file over a program, with the places of its objects and what is done at its calls: its log, what it did
/// above the cut, what was printed on either side, and how it ended.
///
/// `AllocError` where memory runs out.
pub fn record_run(
    alloc: Global,
    code: &FusedCode,
    placed: &Placed,
    stubs: &StubSet,
    file: &SysFile,
) -> Result<Recorded, AllocError>
    requires fits { IsFit (world code.now placed.now stubs.now file.now) }
    ensures { IfOk result (λ r. IsRecording (world code.now placed.now stubs.now file.now) (told r)) }
{
    let inputs = Inputs {
        code,
        placed,
        stubs,
        file,
    };
    let mut state = RunState::new(alloc, inputs)?;
    let ending = run(&mut state, alloc, inputs, main_of(code))?;
    finish(state, alloc, inputs, ending)
}

// Makes steps until the run ends, and tells how it does.
fn run(
    state: &mut RunState,
    alloc: Global,
    inputs: Inputs<'_>,
    main: u16,
) -> Result<Ending, AllocError>
    requires reached { IsReached (world_of inputs) state.old }
    requires main { main ≡ main_at inputs.code.now }
    ensures { IfOk result (IsEnded (world_of inputs.entry) state.new) }
{
    let mut buffers = Buffers::new(alloc);
    'steps: loop {
        if let Some(side) = next_access(state) {
            make_accesses(state, inputs, side);
        }
        match state.next(inputs) {
            Turn::Ended(ending) => return Ok(ending),
            Turn::Step { thread, side, want } => {
                if let Err(stop) = step(
                    state,
                    alloc,
                    inputs,
                    main,
                    &mut buffers,
                    thread,
                    side,
                    want,
                ) {
                    return ending_of(stop);
                }
            }
        }
    }
}

// How a run ends that makes no more steps for this reason.
fn ending_of(stop: Stop) -> Result<Ending, AllocError>
    ensures { (w : World) (s : States) → IsStopped w s stop → IfOk result (IsEnded w s) }
{
    match stop {
        Stop::Ended(ending) => Ok(ending),
        Stop::Memory => Err(AllocError),
    }
}

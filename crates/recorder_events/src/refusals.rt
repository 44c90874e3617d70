//! What is answered where the tests of a step find something.

ghost use Rattle.std.specs.Prelude.{◌≡◌};
ghost use Rattle.marks.specs.declared.side.Side.TheVariants as sides;
ghost use Rattle.whole_runs.specs.World.{World};
ghost use Rattle.steps_above_memory.specs.Steps.{HasCause};
ghost use Rattle.steps_above_memory.specs.Refusals.{refusal_by};
ghost use Rattle.recorder_state.specs.declared.state.RunState.{RunState};
ghost use Rattle.recorder_state.specs.Ends.{IsRefused, IsStopped};
ghost use Rattle.recorder_events.specs.Refusals.{refusal_to_hold};

use marks::{BreachKind, Side};
use race_watch::WatchError;
use recorder_state::Stop;
use space_memory::HoldError;
use steps_above_memory::StepRefusal;

/// What the tests of the thread's step above the cut found; out of memory there is nothing to be said of the state.
pub fn stop_above(thread: u8, refusal: StepRefusal) -> Stop
    ensures { (w : World) (s : RunState) → (HasCause refusal → IsRefused w s thread sides.Replay refusal) →
        IsStopped w s result }
{
    match refusal {
        StepRefusal::Memory => Stop::Memory,
        StepRefusal::Fault(_) | StepRefusal::Breach { .. } => {
            Stop::of(thread, Side::Replay, refusal)
        }
    }
}

/// What a refusal by the watch is to the step.
pub fn refused_by(error: WatchError) -> StepRefusal
    ensures { result ≡ refusal_by error }
{
    match error {
        WatchError::Race { other, addr } => StepRefusal::Breach {
            kind: BreachKind::Race,
            addr,
            other: Some(other),
        },
        WatchError::Memory => StepRefusal::Memory,
    }
}

/// What it is to the step that bytes aren't copied.
pub fn not_read(error: HoldError) -> StepRefusal
    ensures { result ≡ refusal_to_hold error }
{
    match error {
        HoldError::Refused(refusal) => StepRefusal::of(refusal),
        HoldError::Memory => StepRefusal::Memory,
    }
}

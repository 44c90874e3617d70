//! Faults that code comes to by itself.

ghost use Rattle.std.specs.Prelude.{◌≡◌};
ghost use Rattle.marks.specs.declared.fault.FaultKind.{FaultKind as Kinds};
ghost use Rattle.marks.specs.Kinds.{fault_number};
ghost use Rattle.whole_runs.specs.World.{World};
ghost use Rattle.recorder_threads.specs.declared.wants.Want.TheVariants as want;
ghost use Rattle.recorder_state.specs.declared.state.RunState.{RunState};
ghost use Rattle.recorder_state.specs.Ends.{IsStopped};
ghost use Rattle.recorder_state.specs.Turns.{IsAtStep};

use marks::{FaultKind, Side};
use recorder_state::Stop;
use steps_above_memory::StepRefusal;

/// How the run ends where the code of the thread can't go on, on this side. The number is that of the fault's kind, 1 to 6.
pub fn fault(thread: u8, side: Side, number: u8) -> Stop
    ensures { (w : World) (s : RunState) → IsAtStep w s thread side (want.Fault number) →
        IsStopped w s result }
{
    Stop::of(thread, side, StepRefusal::Fault(kind_of(number)))
}

// The kind with the number.
fn kind_of(number: u8) -> FaultKind
    ensures { (kind : Kinds) → number ≡ fault_number kind → result ≡ kind }
{
    match number {
        1 => FaultKind::Divide,
        2 => FaultKind::Shift,
        3 => FaultKind::NotLive,
        4 => FaultKind::ReadOnly,
        5 => FaultKind::StackFull,
        _ => FaultKind::BadCall,
    }
}

//! The fault of a thread.

ghost use Rattle.std.specs.Prelude.{◌≡◌, ◌&&◌, ◌==◌, if◌then◌else◌};
ghost use Rattle.marks.specs.declared.side.Side.TheVariants.{Replay};
ghost use Rattle.c_code.specs.MarkLists.{same_side};
ghost use Rattle.replay_runs.specs.Threads.{act_fault};
ghost use Rattle.reference_recorder_marks.specs.Marks.{act_of, past};
ghost use Rattle.reference_recorder_calls.specs.Mine.{IsFaultOf};

use marks::FaultKind;
use reference_recorder_marks::{Act, Mark, is_above};

/// The thread's fault, where this was it before.
fn act_fault(act: &Act, before: Option<FaultKind>) -> Option<FaultKind>
    ensures { result ≡ act_fault (act_of act.now) before }
{
    match act {
        Act::Turn => before,
        Act::Load { .. } => before,
        Act::Store { .. } => before,
        Act::Enter { .. } => before,
        Act::Leave { .. } => before,
        Act::Step { .. } => before,
        Act::Fault { kind, .. } => Some(*kind),
        Act::Made(_) => before,
    }
}

/// The fault of a thread, one mark on.
fn fault_after(fault: Option<FaultKind>, mark: &Mark, thread: u8) -> Option<FaultKind>
    ensures { result ≡ (if same_side mark.now.side Replay && mark.now.thread == thread
        then act_fault (act_of mark.now.act) fault else fault) }
{
    if is_above(mark) && mark.thread == thread {
        act_fault(&mark.act, fault)
    } else {
        fault
    }
}

/// The fault that the thread met above the cut, if it met one.
pub fn fault_of(marks: &[Mark], thread: u8) -> Option<FaultKind>
    ensures { IsFaultOf (past marks.now) thread result }
{
    let mut fault = None;
    for mark in marks {
        fault = fault_after(fault, mark, thread);
    }
    fault
}

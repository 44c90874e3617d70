//! Calls that come to their results, one mark at a time.

ghost use Rattle.std.specs.Prelude.{◌≡◌};
ghost use Rattle.whole_runs.specs.Outcomes.{act_outcome, event_outcome, is_start as is_start_of};
ghost use Rattle.reference_recorder_marks.specs.Marks.{act_of, kind_of};
ghost use Rattle.reference_recorder_outcomes.specs.Outcomes.{outcome_of, some_outcome};

use c_builtins::Builtin;
use reference_recorder_marks::{Act, EventKind, Mark};

/// A call of a thread that came to its result. Arguments and result are patterns of 64 bits.
#[derive(Clone, Copy)]
pub struct Outcome<'a> {
    pub thread: u8,
    /// The number of the function.
    pub func: u16,
    pub args: &'a [u64],
    pub result: u64,
}

/// The call that comes to its result in the mark, if one does.
pub fn outcome_in(mark: &Mark) -> Option<Outcome<'_>>
    ensures { some_outcome result ≡ act_outcome mark.now.thread (act_of mark.now.act) }
{
    outcome_of_act(mark.thread, &mark.act)
}

// The same of what a mark of the thread does.
fn outcome_of_act(thread: u8, act: &Act) -> Option<Outcome<'_>>
    ensures { some_outcome result ≡ act_outcome thread (act_of act.now) }
{
    match act {
        Act::Step {
            func,
            args,
            result,
            ..
        } => Some(Outcome {
            thread,
            func: *func,
            args: args.as_slice(),
            result: *result,
        }),
        Act::Made(event) => outcome_of_event(thread, &event.kind),
        Act::Turn
        | Act::Load { .. }
        | Act::Store { .. }
        | Act::Enter { .. }
        | Act::Leave { .. }
        | Act::Fault { .. } => None,
    }
}

// The same of an event of the thread.
fn outcome_of_event(thread: u8, kind: &EventKind) -> Option<Outcome<'_>>
    ensures { some_outcome result ≡ event_outcome thread (kind_of kind.now) }
{
    match kind {
        EventKind::Ret {
            func,
            args,
            result,
            ..
        } => Some(Outcome {
            thread,
            func: *func,
            args: args.as_slice(),
            result: *result,
        }),
        EventKind::Call { .. }
        | EventKind::Up { .. }
        | EventKind::UpRet { .. }
        | EventKind::Alloc { .. }
        | EventKind::Free { .. }
        | EventKind::Stop { .. } => None,
    }
}

/// Whether the call started a thread.
pub fn is_start(outcome: Outcome<'_>) -> bool
    ensures { result ≡ is_start_of (outcome_of outcome.entry) }
{
    outcome.func == Builtin::Spawn.number() && outcome.result != u64::MAX
}

//! Who holds a mutex.

ghost use Rattle.std.specs.Prelude.{◌≡◌};
ghost use Rattle.lockset_check_laws.specs.Locks.{deed, event_deed, holder_after, is_that};
ghost use Rattle.whole_runs.specs.Outcomes.{holder as holder_of, mutex_calls};
ghost use Rattle.reference_recorder_marks.specs.Marks.{act_of, kind_of, past};
ghost use Rattle.reference_recorder_outcomes.specs.Outcomes.{held_after};

use c_builtins::Builtin;
use reference_recorder_marks::{Act, EventKind, Mark};

/// The thread that holds the mutex after these marks, the oldest first.
pub fn holder(marks: &[Mark], mutex: u64) -> Option<u8>
    ensures { result ≡ holder_of mutex (past marks.now) }
{
    let mut held = None;
    for mark in marks {
        held = after_act(mutex, mark.thread, &mark.act, held);
    }
    held
}

// The holder after a mark of the thread that does this.
fn after_act(mutex: u64, thread: u8, act: &Act, held: Option<u8>) -> Option<u8>
    ensures { result ≡ holder_after mutex thread (deed mutex_calls (act_of act.now)) held }
{
    match act {
        Act::Step { func, args, .. } => after_call(mutex, thread, *func, args.as_slice(), held),
        Act::Made(event) => after_event(mutex, thread, &event.kind, held),
        Act::Turn
        | Act::Load { .. }
        | Act::Store { .. }
        | Act::Enter { .. }
        | Act::Leave { .. }
        | Act::Fault { .. } => held,
    }
}

// The holder after an event of the thread.
fn after_event(mutex: u64, thread: u8, kind: &EventKind, held: Option<u8>) -> Option<u8>
    ensures { result ≡ holder_after mutex thread (event_deed mutex_calls (kind_of kind.now)) held }
{
    match kind {
        EventKind::Ret { func, args, .. } => after_call(
            mutex,
            thread,
            *func,
            args.as_slice(),
            held,
        ),
        EventKind::Call { .. }
        | EventKind::Up { .. }
        | EventKind::UpRet { .. }
        | EventKind::Alloc { .. }
        | EventKind::Free { .. }
        | EventKind::Stop { .. } => held,
    }
}

// The holder after a call of the thread came to its result.
fn after_call(mutex: u64, thread: u8, func: u16, args: &[u64], held: Option<u8>) -> Option<u8>
    ensures { result ≡ held_after mutex thread func args.now held }
{
    let [asked] = args else {
        return held;
    };
    if *asked != mutex {
        return held;
    }
    if func == Builtin::Lock.number() {
        return Some(thread);
    }
    if func == Builtin::Unlock.number() && is_held_by(held, thread) {
        return None;
    }
    held
}

// Whether it is this thread.
fn is_held_by(held: Option<u8>, thread: u8) -> bool
    ensures { result ≡ is_that held thread }
{
    match held {
        Some(holder) => holder == thread,
        None => false,
    }
}

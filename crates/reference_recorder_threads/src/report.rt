//! What the thread that makes a mark is told of it.

ghost use Rattle.std.specs.Prelude.{◌≡◌};
ghost use Rattle.reference_recorder_marks.specs.Marks.{act_of, kind_of};
ghost use Rattle.reference_recorder_threads.specs.Telling.{IsShort, act_report, event_report, gives_next, gives_want, ret_report};

use crate::numbers::number_of;
use recorder_threads::{Next, Want};
use reference_recorder_marks::{Act, EventKind};

/// What a thread is told of its mark.
#[derive(Clone, Copy)]
pub enum Report {
    /// Nothing follows.
    Nothing,
    /// It was made.
    Go,
    /// It gave this value.
    Value(u64),
    /// The function's frame begins at the address.
    Frame(u64),
    /// The event of its call was made.
    Crosses,
    /// Its function is called back.
    Up,
}

/// Whether the code of a thread waits for the result of a builtin or external.
pub fn is_given(next: Next) -> bool
    ensures { result ≡ gives_next next }
{
    match next {
        Next::Ended { .. } => false,
        Next::Wants { want, .. } => is_give(want),
    }
}

fn is_give(want: Want) -> bool
    ensures { result ≡ gives_want want }
{
    match want {
        Want::Give { .. } => true,
        Want::Turn
        | Want::Load { .. }
        | Want::Store { .. }
        | Want::Enter { .. }
        | Want::Leave
        | Want::Alloc { .. }
        | Want::Free { .. }
        | Want::Call { .. }
        | Want::Return { .. }
        | Want::CallBack { .. }
        | Want::UpReturn { .. }
        | Want::Step { .. }
        | Want::Fault(_) => false,
    }
}

/// What a thread is told of a mark that does this; `gives` where its code waited for the result of a builtin or external.
pub fn report_of(act: &Act, gives: bool) -> Report
    requires { IsShort (act_of act.now) }
    ensures { result ≡ act_report gives (act_of act.now) }
{
    match act {
        Act::Turn => Report::Go,
        Act::Load { bytes, .. } => Report::Value(number_of(bytes.as_slice())),
        Act::Store { .. } => Report::Go,
        Act::Enter { at, .. } => Report::Frame(*at),
        Act::Leave { .. } => Report::Go,
        Act::Step { result, .. } => Report::Value(*result),
        Act::Fault { .. } => Report::Nothing,
        Act::Made(event) => report_of_event(&event.kind, gives),
    }
}

// The same of an event.
fn report_of_event(kind: &EventKind, gives: bool) -> Report
    ensures { result ≡ event_report gives (kind_of kind.now) }
{
    match kind {
        EventKind::Call { .. } => Report::Crosses,
        EventKind::Ret { result, .. } => report_of_return(*result, gives),
        EventKind::Up { .. } => Report::Up,
        EventKind::UpRet { .. } => Report::Go,
        EventKind::Alloc { at, .. } => Report::Value(*at),
        EventKind::Free { .. } => Report::Go,
        EventKind::Stop { .. } => Report::Nothing,
    }
}

// The same of a Ret with this result.
fn report_of_return(value: u64, gives: bool) -> Report
    ensures { result ≡ ret_report gives value }
{
    if gives {
        Report::Value(value)
    } else {
        Report::Go
    }
}

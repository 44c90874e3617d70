//! The builtin or external whose result the code of a thread waits for.

ghost use Rattle.std.specs.Prelude.{◌≡◌};
ghost use Rattle.recorder_state.specs.Inputs.{world_of};
ghost use Rattle.reference_recorder_made.specs.Asking.{asked_func};
ghost use Rattle.reference_recorder_threads.specs.Telling.{AreThreadsAfter, IsPast};
ghost use Rattle.reference_recorder_given.specs.Given.{shown};
ghost use Rattle.reference_recorder.specs.Steps.{IsGivenFor, lacks};

use recorder_state::Inputs;
use recorder_threads::{Threads, Want};
use reference_recorder_given::{Given, given_to};
use reference_recorder_marks::Mark;

// Its number, if the code waits for one.
fn asked(want: Want) -> Option<u16>
    ensures { result ≡ asked_func want }
{
    match want {
        Want::Give { func } | Want::Step { func, .. } => Some(func),
        Want::Turn
        | Want::Load { .. }
        | Want::Store { .. }
        | Want::Enter { .. }
        | Want::Leave
        | Want::Alloc { .. }
        | Want::Free { .. }
        | Want::Call { .. }
        | Want::Return { .. }
        | Want::CallBack { .. }
        | Want::UpReturn { .. }
        | Want::Fault(_) => None,
    }
}

/// What its call comes to, if the code waits for one.
pub fn given_for<'a>(
    threads: &Threads,
    inputs: Inputs<'a>,
    marks: &[Mark],
    thread: u8,
    want: Want,
    args: &[u64],
) -> Given<'a>
    requires past { IsPast (world_of inputs) marks.now }
    requires threads { AreThreadsAfter (world_of inputs) marks.now threads.now }
    ensures { (p : IsPast (world_of inputs.entry) marks.now) →
        IsGivenFor (world_of inputs.entry) p.run thread args.now (asked_func want) (shown result) }
{
    match asked(want) {
        Some(func) => given_to(threads, inputs, marks, thread, func, args),
        None => Given::ByPool,
    }
}

/// The external of which an answer is lacking.
pub fn lacking(want: Want, given: Given<'_>) -> Option<u16>
    ensures { result ≡ lacks (asked_func want) (shown given.entry) }
{
    match given {
        Given::NoMore => asked(want),
        Given::ByPool => None,
        Given::Says { .. } => None,
    }
}

//! What a mark starts a thread with.

ghost use Rattle.std.specs.Prelude.{Some};
ghost use Rattle.whole_runs.specs.Outcomes.{act_outcome};
ghost use Rattle.reference_recorder_marks.specs.Marks.{act_of};
ghost use Rattle.reference_recorder_outcomes.specs.Outcomes.{outcome_of};
ghost use Rattle.reference_recorder_threads.specs.Telling.{IsPair, IsStartOf};

use reference_recorder_marks::Mark;
use reference_recorder_outcomes::{Outcome, is_start, outcome_in};

/// What a thread is started with.
#[derive(Clone, Copy)]
pub struct Start {
    /// Where its function lies.
    pub address: u64,
    pub argument: u64,
}

/// What the mark starts a thread with, if it does.
pub fn start_in(mark: &Mark) -> Option<Start>
    ensures { IsStartOf (act_outcome mark.now.thread (act_of mark.now.act)) result }
{
    match outcome_in(mark) {
        Some(outcome) => start_of(outcome),
        None => None,
    }
}

// The same of the call that comes to its result in it.
fn start_of(outcome: Outcome<'_>) -> Option<Start>
    ensures { IsStartOf (Some (outcome_of outcome.entry)) result }
{
    if is_start(outcome) {
        pair_of(outcome.args)
    } else {
        None
    }
}

// An address and an argument.
fn pair_of(args: &[u64]) -> Option<Start>
    ensures { IsPair args.now result }
{
    let [address, argument] = args else {
        return None;
    };
    Some(Start {
        address: *address,
        argument: *argument,
    })
}

//! How many calls of a kind came to their results.

ghost use Rattle.std.specs.Prelude.{◌≡◌, ◌==◌};
ghost use Rattle.whole_runs.specs.Outcomes.{Outcome as Outcomes, act_outcome, is_start as is_start_of, started as started_in, used as used_in};
ghost use Rattle.reference_recorder_marks.specs.Marks.{act_of, past};
ghost use Rattle.reference_recorder_outcomes.specs.Outcomes.{holds_of};

use crate::results::{is_start, outcome_in};
use reference_recorder_marks::Mark;

/// How many threads were started in a run with these marks, the oldest first: the first one, and one for each call of `r2_spawn` that
/// gave a number.
pub fn started(marks: &[Mark]) -> usize
    ensures { result ≡ started_in (past marks.now) }
{
    let mut count = 1;
    for mark in marks {
        if starts(mark) {
            count += 1;
        }
    }
    count
}

/// How many answers of the function are used after these marks, the oldest first, by all threads.
pub fn used(marks: &[Mark], func: u16) -> usize
    ensures { result ≡ used_in func (past marks.now) }
{
    let mut count = 0;
    for mark in marks {
        if uses(mark, func) {
            count += 1;
        }
    }
    count
}

// Whether a thread is started in the mark.
fn starts(mark: &Mark) -> bool
    ensures { result ≡ holds_of is_start_of (act_outcome mark.now.thread (act_of mark.now.act)) }
{
    match outcome_in(mark) {
        Some(outcome) => is_start(outcome),
        None => false,
    }
}

// Whether a call of the function comes to its result in the mark.
fn uses(mark: &Mark, func: u16) -> bool
    ensures { result ≡ holds_of (λ (o : Outcomes). o.func == func)
        (act_outcome mark.now.thread (act_of mark.now.act)) }
{
    match outcome_in(mark) {
        Some(outcome) => outcome.func == func,
        None => false,
    }
}

//! How many events there are with a link, the clock of the last one, and the steps of a thread since its last event.

ghost use Rattle.std.specs.Prelude.{◌≡◌, ◌+◌, ◌<◌, ◌^◌, ◌&&◌, ◌==◌, if◌then◌else◌, length};
ghost use Rattle.marks.specs.declared.side.Side.TheVariants.{Replay};
ghost use Rattle.marks.specs.Marks.{is_event};
ghost use Rattle.c_code.specs.MarkLists.{same_side};
ghost use Rattle.replay_runs.specs.Runs.{clock_of, counts, has, last_clock, new_events};
ghost use Rattle.reference_recorder_marks.specs.Marks.{act_of, mark_of, past};
ghost use Rattle.reference_recorder_stamps.specs.Links.{link_of};
ghost use Rattle.reference_recorder_stamps.specs.Numbers.{AreSteps};

use crate::links::{Link, has};
use reference_recorder_marks::{Act, Mark, clock_of, is_above};

/// How many events there are, one mark on.
fn count_after(number: u32, mark: &Mark, link: Link) -> u32
    requires { number + 1 < 2 ^ 32 }
    ensures { result ≡ (if has (mark_of mark.now) (link_of link) then number + 1 else number) }
{
    if has(mark, link) { number + 1 } else { number }
}

/// How many of the marks are events with the link.
pub fn count(marks: &[Mark], link: Link) -> u32
    requires { length marks.now + 1 < 2 ^ 32 }
    ensures { result ≡ length (new_events (link_of link) (past marks.now)) }
{
    let mut number = 0;
    for mark in marks {
        number = count_after(number, mark, link);
    }
    number
}

/// The clock of the last event, one mark on.
fn clock_after(clock: u32, mark: &Mark, link: Link) -> u32
    ensures { result ≡
        (if has (mark_of mark.now) (link_of link) then clock_of (act_of mark.now.act) else clock) }
{
    if has(mark, link) {
        clock_of(&mark.act)
    } else {
        clock
    }
}

/// The clock of the last event with the link, 0 where there is none.
pub fn last_clock(marks: &[Mark], link: Link) -> u32
    ensures { result ≡ last_clock (new_events (link_of link) (past marks.now)) }
{
    let mut clock = 0;
    for mark in marks {
        clock = clock_after(clock, mark, link);
    }
    clock
}

/// The steps since the last event, one mark of the thread on.
fn act_steps(steps: u32, act: &Act) -> u32
    requires { steps + 1 < 2 ^ 32 }
    ensures { result ≡ (if is_event (act_of act.now) then 0 else counts (act_of act.now) + steps) }
{
    match act {
        Act::Turn => 1 + steps,
        Act::Load { .. } => 1 + steps,
        Act::Store { .. } => 1 + steps,
        Act::Enter { .. } => 1 + steps,
        Act::Leave { .. } => 1 + steps,
        Act::Step { .. } => 1 + steps,
        Act::Fault { .. } => 0 + steps,
        Act::Made(_) => 0,
    }
}

/// The same, one mark on.
fn steps_after(steps: u32, mark: &Mark, thread: u8) -> u32
    requires { steps + 1 < 2 ^ 32 }
    ensures { result ≡ (if same_side mark.now.side Replay && mark.now.thread == thread
        then (if is_event (act_of mark.now.act) then 0 else counts (act_of mark.now.act) + steps)
        else steps) }
{
    if is_above(mark) && mark.thread == thread {
        act_steps(steps, &mark.act)
    } else {
        steps
    }
}

/// How many steps the thread made above the cut since its last event.
pub fn steps_since(marks: &[Mark], thread: u8) -> u32
    requires { length marks.now + 1 < 2 ^ 32 }
    ensures { AreSteps (past marks.now) thread result }
{
    let mut steps = 0;
    for mark in marks {
        steps = steps_after(steps, mark, thread);
    }
    steps
}

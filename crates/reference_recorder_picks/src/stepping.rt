//! Which thread makes the next step.

ghost use Rattle.std.specs.Prelude.{◌≡◌, ◌-◌, ◌<◌, ◌≤◌, not, find, length, ltb};
ghost use Rattle.std.specs.List.{range_with_len};
ghost use Rattle.whole_runs.specs.Threads.{comes, has_ended};
ghost use Rattle.whole_runs.specs.Picks.{all_ended as all_ended_in, can_step as can_step_in, stepping};
ghost use Rattle.recorder_state.specs.Inputs.{world_of};
ghost use Rattle.recorder_state.specs.Turns.{asked_func};
ghost use Rattle.recorder_threads.specs.Threads.{args_at};
ghost use Rattle.recorder_threads.specs.Wants.{WantsTold};
ghost use Rattle.reference_recorder_threads.specs.Telling.{AreThreadsAfter, IsPast};

use crate::free::{is_ended, is_free};
use crate::schedule::wish;
use c_code::Side;
use recorder_state::Inputs;
use recorder_threads::{Next, Threads, Want};
use reference_recorder_marks::Mark;

/// How many threads a run may have.
const THREADS: u8 = 32;

/// Whether all threads that were started have ended after these marks of a run, the oldest first.
pub fn all_ended(threads: &Threads, inputs: Inputs<'_>, marks: &[Mark]) -> bool
    requires past { IsPast (world_of inputs) marks.now }
    requires threads { AreThreadsAfter (world_of inputs) marks.now threads.now }
    ensures { (p : IsPast (world_of inputs.entry) marks.now) →
        result ≡ all_ended_in (world_of inputs.entry) p.run }
{
    for thread in 0..threads.count() {
        let number = thread as u8;
        if is_running(threads, inputs, marks, number) {
            return false;
        }
    }
    true
}

// Whether the thread hasn't ended.
fn is_running(threads: &Threads, inputs: Inputs<'_>, marks: &[Mark], thread: u8) -> bool
    requires past { IsPast (world_of inputs) marks.now }
    requires threads { AreThreadsAfter (world_of inputs) marks.now threads.now }
    requires started { thread < length threads.now }
    ensures { (p : IsPast (world_of inputs.entry) marks.now) →
        result ≡ not (has_ended (world_of inputs.entry) p.run thread) }
{
    !is_ended(threads, inputs, marks, thread)
}

/// The thread that makes the next step: the first that can, from the one that the schedule wishes for on. `None` where none can.
pub fn next_thread(threads: &Threads, inputs: Inputs<'_>, marks: &[Mark]) -> Option<u8>
    requires past { IsPast (world_of inputs) marks.now }
    requires threads { AreThreadsAfter (world_of inputs) marks.now threads.now }
    ensures { (p : IsPast (world_of inputs.entry) marks.now) →
        result ≡ stepping (world_of inputs.entry) p.run }
{
    let wished = wish(&inputs.file.schedule, marks.len() as u64);
    match first_in(threads, inputs, marks, wished, THREADS) {
        Some(thread) => Some(thread),
        None => first_in(threads, inputs, marks, 0, wished),
    }
}

// The first thread from one on and before another that can make a step.
fn first_in(threads: &Threads, inputs: Inputs<'_>, marks: &[Mark], from: u8, end: u8) -> Option<u8>
    requires past { IsPast (world_of inputs) marks.now }
    requires threads { AreThreadsAfter (world_of inputs) marks.now threads.now }
    requires order { from ≤ end }
    ensures { (p : IsPast (world_of inputs.entry) marks.now) → result ≡
        find (can_step_in (world_of inputs.entry) p.run) (range_with_len from (end - from)) }
{
    for thread in from..end {
        if can_step(threads, inputs, marks, thread) {
            return Some(thread);
        }
    }
    None
}

/// Whether the thread was started, hasn't ended, and gets on with what its code wants.
pub fn can_step(threads: &Threads, inputs: Inputs<'_>, marks: &[Mark], thread: u8) -> bool
    requires past { IsPast (world_of inputs) marks.now }
    requires threads { AreThreadsAfter (world_of inputs) marks.now threads.now }
    ensures { (p : IsPast (world_of inputs.entry) marks.now) →
        result ≡ can_step_in (world_of inputs.entry) p.run thread }
{
    if is_started(threads, thread) {
        started_can_step(threads, inputs, marks, thread)
    } else {
        false
    }
}

fn is_started(threads: &Threads, thread: u8) -> bool
    ensures { result ≡ ltb thread (length threads.now) }
{
    usize::from(thread) < threads.count()
}

// The same of a thread that was started.
fn started_can_step(threads: &Threads, inputs: Inputs<'_>, marks: &[Mark], thread: u8) -> bool
    requires past { IsPast (world_of inputs) marks.now }
    requires threads { AreThreadsAfter (world_of inputs) marks.now threads.now }
    requires started { thread < length threads.now }
    ensures { (p : IsPast (world_of inputs.entry) marks.now) →
        result ≡ can_step_in (world_of inputs.entry) p.run thread }
{
    match threads.want(inputs.code, inputs.placed, thread) {
        Next::Ended { .. } => false,
        Next::Wants { side, want } => gets_on(threads, inputs, marks, thread, side, want),
    }
}

// The same of one whose code wants this on this side.
fn gets_on(
    threads: &Threads,
    inputs: Inputs<'_>,
    marks: &[Mark],
    thread: u8,
    side: Side,
    want: Want,
) -> bool
    requires past { IsPast (world_of inputs) marks.now }
    requires threads { AreThreadsAfter (world_of inputs) marks.now threads.now }
    requires started { thread < length threads.now }
    ensures { (p : IsPast (world_of inputs.entry) marks.now) →
        WantsTold (world_of inputs.entry).laid (args_at threads.now thread) side want
        (comes (world_of inputs.entry) p.run thread) →
        result ≡ can_step_in (world_of inputs.entry) p.run thread }
{
    let args = threads.args(thread);
    match asked(want) {
        Some(func) => is_free(threads, inputs, marks, thread, func, args),
        None => true,
    }
}

// The function of a call of a builtin or external whose result is waited for.
fn asked(want: Want) -> Option<u16>
    ensures { result ≡ asked_func want }
{
    match want {
        Want::Give { func } | Want::Step { func, .. } => Some(func),
        Want::Turn
        | Want::Load { .. }
        | Want::Store { .. }
        | Want::Enter { .. }
        | Want::Leave
        | Want::Alloc { .. }
        | Want::Free { .. }
        | Want::Call { .. }
        | Want::Return { .. }
        | Want::CallBack { .. }
        | Want::UpReturn { .. }
        | Want::Fault(_) => None,
    }
}

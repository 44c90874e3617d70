//! What a call comes to.

ghost use Rattle.std.specs.Prelude.{◌≡◌, ◌<◌, length, leb, unwrap_or, if◌then◌else◌, []};
ghost use Rattle.marks.specs.Places.{thread_count};
ghost use Rattle.system_side.specs.System.{is_thread};
ghost use Rattle.whole_runs.specs.Outcomes.{holder as holder_of, minus_one, started as started_in, used as used_in};
ghost use Rattle.whole_runs.specs.Threads.{result_of};
ghost use Rattle.whole_runs.specs.Picks.{is_other};
ghost use Rattle.whole_runs.specs.Below.{Says, given as given_in};
ghost use Rattle.recorder_state.specs.Inputs.{world_of};
ghost use Rattle.reference_recorder_marks.specs.Marks.{past};
ghost use Rattle.reference_recorder_threads.specs.Telling.{AreThreadsAfter, IsPast};
ghost use Rattle.reference_recorder_given.specs.Given.{answered_with, given_by_builtin, shown};

use crate::answers::answer_of;
use c_builtins::Builtin;
use recorder_state::Inputs;
use recorder_threads::Threads;
use reference_recorder_marks::Mark;
use reference_recorder_outcomes::{builtin_of, first, holder, started, used};
use reference_recorder_picks::other;
use run_events::Bytes;
use system_side::SysFile;

/// How many threads a run may have.
const THREADS: usize = 32;

/// What the call of a builtin or external comes to.
#[derive(Clone, Copy)]
pub enum Given<'a> {
    /// The pool says it.
    ByPool,
    /// This result, a pattern of 64 bits, and of an external the bytes that it writes, a piece for each region.
    Says { result: u64, pieces: &'a [Bytes] },
    /// The file has no more answers of the external.
    NoMore,
}

/// What the thread's call of the builtin or external comes to after these marks of a run, the oldest first.
pub fn given_to<'a>(
    threads: &Threads,
    inputs: Inputs<'a>,
    marks: &[Mark],
    thread: u8,
    func: u16,
    args: &[u64],
) -> Given<'a>
    requires past { IsPast (world_of inputs) marks.now }
    requires threads { AreThreadsAfter (world_of inputs) marks.now threads.now }
    ensures { (p : IsPast (world_of inputs.entry) marks.now) →
        shown result ≡ given_in (world_of inputs.entry) p.run thread func args.now }
{
    match builtin_of(func) {
        Some(builtin) => by_builtin(threads, inputs, marks, thread, first(args), builtin),
        None => by_file(inputs.file, marks, func),
    }
}

// What a builtin with this first argument gives.
fn by_builtin<'a>(
    threads: &Threads,
    inputs: Inputs<'_>,
    marks: &[Mark],
    thread: u8,
    argument: u64,
    builtin: Builtin,
) -> Given<'a>
    requires past { IsPast (world_of inputs) marks.now }
    requires threads { AreThreadsAfter (world_of inputs) marks.now threads.now }
    ensures { (p : IsPast (world_of inputs.entry) marks.now) →
        shown result ≡ given_by_builtin (world_of inputs.entry) p.run thread argument builtin }
{
    match builtin {
        Builtin::Malloc => Given::ByPool,
        Builtin::Free => Given::ByPool,
        Builtin::Spawn => says(number_of_next(marks)),
        Builtin::Join => says(join_result(threads, inputs, marks, thread, argument)),
        Builtin::Lock => says(0),
        Builtin::Unlock => says(unlock_result(marks, thread, argument)),
        Builtin::Print => says(0),
    }
}

// A builtin that has a result writes nothing.
fn says<'a>(value: u64) -> Given<'a>
    ensures { shown result ≡ Says value [] }
{
    Given::Says {
        result: value,
        pieces: &[],
    }
}

// What is given for a new thread: its number, or -1 where there are as many as there may be.
fn number_of_next(marks: &[Mark]) -> u64
    ensures { result ≡ (if leb thread_count (started_in (past marks.now)) then minus_one
        else started_in (past marks.now)) }
{
    let count = started(marks);
    if count < THREADS {
        count as u64
    } else {
        u64::MAX
    }
}

// What a thread is given that joins the one with this number: its result, 0 where it hasn't ended, or -1 where there is no such other.
fn join_result(
    threads: &Threads,
    inputs: Inputs<'_>,
    marks: &[Mark],
    thread: u8,
    number: u64,
) -> u64
    requires past { IsPast (world_of inputs) marks.now }
    requires threads { AreThreadsAfter (world_of inputs) marks.now threads.now }
    ensures { (p : IsPast (world_of inputs.entry) marks.now) → result ≡ (if is_other p.run thread number
        then unwrap_or (result_of (world_of inputs.entry) p.run number) 0 else minus_one) }
{
    match other(threads, inputs, marks, thread, number) {
        Some(ended) => result_or_zero(threads, inputs, marks, ended),
        None => u64::MAX,
    }
}

// What the thread's first function has returned; 0 before that.
fn result_or_zero(threads: &Threads, inputs: Inputs<'_>, marks: &[Mark], thread: u8) -> u64
    requires past { IsPast (world_of inputs) marks.now }
    requires threads { AreThreadsAfter (world_of inputs) marks.now threads.now }
    requires started { thread < length threads.now }
    ensures { (p : IsPast (world_of inputs.entry) marks.now) →
        result ≡ unwrap_or (result_of (world_of inputs.entry) p.run thread) 0 }
{
    let returned = threads.result(inputs.code, inputs.placed, thread);
    returned.unwrap_or(0)
}

// What a thread is given that unlocks a mutex: 0, or -1 where it doesn't hold it.
fn unlock_result(marks: &[Mark], thread: u8, mutex: u64) -> u64
    ensures { result ≡ (if is_thread thread (holder_of mutex (past marks.now)) then 0 else minus_one) }
{
    if is_held_by(holder(marks, mutex), thread) {
        0
    } else {
        u64::MAX
    }
}

// Whether it is this thread.
fn is_held_by(held: Option<u8>, thread: u8) -> bool
    ensures { result ≡ is_thread thread held }
{
    match held {
        Some(holder) => holder == thread,
        None => false,
    }
}

// What an external is given: its next answer, if the file has one more.
fn by_file<'a>(file: &'a SysFile, marks: &[Mark], func: u16) -> Given<'a>
    ensures { shown result ≡ answered_with file.now.answers func (used_in func (past marks.now)) }
{
    match answer_of(file, func, used(marks, func)) {
        Some(answer) => Given::Says {
            result: answer.result,
            pieces: answer.pieces,
        },
        None => Given::NoMore,
    }
}

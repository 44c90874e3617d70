//! Whether a thread gets on with a call of a builtin or external.

ghost use Rattle.std.specs.Prelude.{◌≡◌, ◌<◌, ◌||◌, not, length, is_some, IfSome};
ghost use Rattle.whole_runs.specs.Outcomes.{builtin_of as builtin_at, holder as holder_of};
ghost use Rattle.whole_runs.specs.Threads.{has_ended};
ghost use Rattle.whole_runs.specs.Picks.{is_free as is_free_in, is_other};
ghost use Rattle.recorder_state.specs.Inputs.{world_of};
ghost use Rattle.reference_recorder_marks.specs.Marks.{past};
ghost use Rattle.reference_recorder_threads.specs.Telling.{AreThreadsAfter, IsPast};
ghost use Rattle.reference_recorder_picks.specs.Picks.{free_by, other_of};

use c_builtins::Builtin;
use recorder_state::Inputs;
use recorder_threads::Threads;
use reference_recorder_marks::Mark;
use reference_recorder_outcomes::{builtin_of, first, holder};

/// Whether the thread gets on with its call of the builtin or external after these marks of a run, the oldest first: no mutex is
/// taken that is held, and no other thread is joined that hasn't ended.
pub fn is_free(
    threads: &Threads,
    inputs: Inputs<'_>,
    marks: &[Mark],
    thread: u8,
    func: u16,
    args: &[u64],
) -> bool
    requires past { IsPast (world_of inputs) marks.now }
    requires threads { AreThreadsAfter (world_of inputs) marks.now threads.now }
    ensures { (p : IsPast (world_of inputs.entry) marks.now) →
        result ≡ is_free_in (world_of inputs.entry) p.run thread args.now (builtin_at func) }
{
    match builtin_of(func) {
        Some(builtin) => is_builtin_free(threads, inputs, marks, thread, first(args), builtin),
        None => true,
    }
}

// The same of a builtin with this first argument.
fn is_builtin_free(
    threads: &Threads,
    inputs: Inputs<'_>,
    marks: &[Mark],
    thread: u8,
    argument: u64,
    builtin: Builtin,
) -> bool
    requires past { IsPast (world_of inputs) marks.now }
    requires threads { AreThreadsAfter (world_of inputs) marks.now threads.now }
    ensures { (p : IsPast (world_of inputs.entry) marks.now) →
        result ≡ free_by (world_of inputs.entry) p.run thread argument builtin }
{
    match builtin {
        Builtin::Join => may_join(threads, inputs, marks, thread, argument),
        Builtin::Lock => !is_held(marks, argument),
        Builtin::Malloc | Builtin::Free | Builtin::Spawn | Builtin::Unlock | Builtin::Print => true,
    }
}

// Whether it gets on where it joins the thread with this number.
fn may_join(threads: &Threads, inputs: Inputs<'_>, marks: &[Mark], thread: u8, number: u64) -> bool
    requires past { IsPast (world_of inputs) marks.now }
    requires threads { AreThreadsAfter (world_of inputs) marks.now threads.now }
    ensures { (p : IsPast (world_of inputs.entry) marks.now) →
        result ≡ (not (is_other p.run thread number) || has_ended (world_of inputs.entry) p.run number) }
{
    match other(threads, inputs, marks, thread, number) {
        Some(joined) => is_ended(threads, inputs, marks, joined),
        None => true,
    }
}

/// Whether the thread's first function has returned.
pub fn is_ended(threads: &Threads, inputs: Inputs<'_>, marks: &[Mark], thread: u8) -> bool
    requires past { IsPast (world_of inputs) marks.now }
    requires threads { AreThreadsAfter (world_of inputs) marks.now threads.now }
    requires started { thread < length threads.now }
    ensures { (p : IsPast (world_of inputs.entry) marks.now) →
        result ≡ has_ended (world_of inputs.entry) p.run thread }
{
    let returned = threads.result(inputs.code, inputs.placed, thread);
    returned.is_some()
}

/// The number, where it is one of a started thread other than this one.
pub fn other(
    threads: &Threads,
    inputs: Inputs<'_>,
    marks: &[Mark],
    thread: u8,
    number: u64,
) -> Option<u8>
    requires past { IsPast (world_of inputs) marks.now }
    requires threads { AreThreadsAfter (world_of inputs) marks.now threads.now }
    ensures other { (p : IsPast (world_of inputs.entry) marks.now) →
        result ≡ other_of p.run thread number }
    ensures started { IfSome result (λ t. t < length threads.now) }
{
    let count = threads.count() as u64;
    if number >= count {
        return None;
    }
    let own = u64::from(thread);
    if number == own {
        return None;
    }
    let other = number as u8;
    Some(other)
}

// Whether a thread holds the mutex.
fn is_held(marks: &[Mark], mutex: u64) -> bool
    ensures { result ≡ is_some (holder_of mutex (past marks.now)) }
{
    holder(marks, mutex).is_some()
}

//! A Ret of which all is known but its bytes: they are copied, and it is recorded.

ghost use Rattle.std.specs.Prelude.{◌≡◌, ◌<◌, ℕ, length, IfErr, None, OnOk};
ghost use Rattle.marks.specs.Places.{thread_count};
ghost use Rattle.marks.specs.Wants.{Answer};
ghost use Rattle.steps_above_memory.specs.declared.refusal.StepRefusal.TheVariants.{Memory};
ghost use Rattle.recorder_threads.specs.Threads.{args_at};
ghost use Rattle.recorder_state.specs.Inputs.{world_of};
ghost use Rattle.recorder_state.specs.Ends.{IsStopped};
ghost use Rattle.recorder_state.specs.Plain.{IsResultStep};
ghost use Rattle.recorder_events.specs.Room.{IsRoomOrEnd};
ghost use Rattle.recorder_returns.specs.Saying.{IsSaid};
ghost use Rattle.recorder_returns.specs.Coming.{IsReturning};
ghost use Rattle.recorder_returns.specs.Recording.{CountsIfCached, IsIndexNext, IsRetNext, IsSmallRun};

use crate::copying::{Brought, bring};
use crate::returning::{Returning, repeats};
use marks::Range;
use recorder_book::Book;
use recorder_events::{full, make_event};
use recorder_state::{Inputs, RunState, Stop};
use run_events::Event;
use std::alloc::{AllocError, Global};
use steps_above_interface::InterfaceState;
use steps_above_memory::StepRefusal;

/// Records the Ret of the thread's call of the function, which comes to this value: the tests of the Ret passed, and memory has the
/// pieces of its answer. Threads and the system aren't told of it.
pub fn record_ret(
    state: &mut RunState,
    inputs: Inputs<'_>,
    alloc: Global,
    returning: &Returning,
    thread: u8,
    func: u16,
    value: u64,
) -> Result<(), Stop>
    requires next { (x : Answer) × IsReturning (world_of inputs) state.old thread func value x }
    requires said { IsSaid (world_of inputs) func (args_at state.old.threads thread) value returning.now }
    ensures made { (x : Answer) → IsReturning (world_of inputs.entry) state.old thread func value x →
        OnOk result (IsResultStep (world_of inputs.entry) state.new thread func value x) }
    ensures steps { OnOk result (state.new.steps ≡ state.old.steps) }
    ensures stopped { IfErr result (IsStopped (world_of inputs.entry) state.new) }
{
    let Ok(brought) = bring(&state.memory.above.spaces, alloc, thread, returning) else {
        return Err(Stop::Memory);
    };
    let Brought { pieces, ranges } = brought;
    let cached = returning.done.is_cached();
    let same = repeats(state, cached, thread, func, value, pieces.as_slice());
    let event = Event::Ret {
        same,
        result: value,
        outs: pieces,
    };
    let ranges = ranges.as_slice();
    make(state, inputs, alloc, returning, thread, func, ranges, event)
}

// Records a Ret with these regions and this record, if there is room for it.
fn make(
    state: &mut RunState,
    inputs: Inputs<'_>,
    alloc: Global,
    returning: &Returning,
    thread: u8,
    func: u16,
    ranges: &[Range],
    event: Event,
) -> Result<(), Stop>
    requires { (v : ℕ) × (x : Answer) ×
        IsRetNext (world_of inputs) state.old thread func v x returning.now ranges.now event }
    ensures made { (v : ℕ) (x : Answer) →
        IsRetNext (world_of inputs.entry) state.old thread func v x returning.now ranges.now event →
        OnOk result (IsResultStep (world_of inputs.entry) state.new thread func v x) }
    ensures steps { OnOk result (state.new.steps ≡ state.old.steps) }
    ensures stopped { IfErr result (IsStopped (world_of inputs.entry) state.new) }
{
    let keys = returning.keys.as_slice();
    match full(&state.book, &event, keys.len()) {
        Some(ending) => Err(Stop::Ended(ending)),
        None => match put(state, inputs, alloc, returning, thread, func, ranges, event) {
            Ok(()) => Ok(()),
            Err(_) => Err(Stop::Memory),
        },
    }
}

// Records it where there is room: memory and functions are told of it.
fn put(
    state: &mut RunState,
    inputs: Inputs<'_>,
    alloc: Global,
    returning: &Returning,
    thread: u8,
    func: u16,
    ranges: &[Range],
    event: Event,
) -> Result<(), AllocError>
    requires next { (v : ℕ) × (x : Answer) ×
        IsRetNext (world_of inputs) state.old thread func v x returning.now ranges.now event }
    requires room { IsRoomOrEnd state.old.book event (length returning.now.keys.items) None }
    ensures made { (v : ℕ) (x : Answer) →
        IsRetNext (world_of inputs.entry) state.old thread func v x returning.now ranges.now event →
        OnOk result (IsResultStep (world_of inputs.entry) state.new thread func v x) }
    ensures steps { OnOk result (state.new.steps ≡ state.old.steps) }
{
    let keys = returning.keys.as_slice();
    let used = returning.done.used();
    if let Err(refusal) = state
        .memory
        .return_above(thread, used, returning.commit(), ranges, keys)
    {
        return Err(lack_of_memory(refusal));
    }
    let index = next_index(&state.book, thread);
    if let Err(_) = make_event(state, inputs, alloc, thread, keys, event) {
        return Err(AllocError);
    }
    let cached = returning.done.is_cached();
    note(&mut state.interface, cached, thread, func, index);
    Ok(())
}

// Why memory doesn't take a step whose tests passed.
fn lack_of_memory(refusal: StepRefusal) -> AllocError
    requires { refusal ≡ Memory }
{
    match refusal {
        StepRefusal::Memory => AllocError,
        StepRefusal::Fault(_) | StepRefusal::Breach { .. } => unreachable!("its tests passed"),
    }
}

// The index of the thread's next event.
fn next_index(book: &Book, thread: u8) -> u32
    requires thread { thread < thread_count }
    requires run { IsSmallRun book.now thread }
    ensures { IsIndexNext book.now thread result }
{
    book.records(thread).len() as u32
}

// Counts the thread's Ret of a function that has `cache`, and no other.
fn note(interface: &mut InterfaceState, cached: bool, thread: u8, func: u16, index: u32)
    requires thread { thread < thread_count }
    requires func { func < length interface.old.registered }
    ensures counts { CountsIfCached cached thread func index interface.old interface.new }
    ensures functions { length interface.new.registered ≡ length interface.old.registered }
{
    if !cached {
        return;
    }
    interface.remember(thread, func, index);
}

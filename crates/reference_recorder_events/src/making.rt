//! What the marks of all events have.

ghost use Rattle.std.specs.Prelude.{◌≡◌, IfOk};
ghost use Rattle.steps_above_stamps.specs.Stamps.{event_with};
ghost use Rattle.recorder_state.specs.Inputs.{world_of};
ghost use Rattle.reference_recorder_marks.specs.Marks.{act_of, kind_of, past};
ghost use Rattle.reference_recorder_threads.specs.Telling.{IsPast};
ghost use Rattle.reference_recorder_events.specs.Events.{IsEventOf};

use marks::Side;
use recorder_state::Inputs;
use reference_recorder_calls::event_keys;
use reference_recorder_laws::{events_can_be_stamped, runs_are_short};
use reference_recorder_marks::{Act, Event, EventKind, Mark};
use reference_recorder_stamps::{Link, count, stamp};
use std::alloc::{AllocError, Global};
use steps_above_stamps::EventStamp;
use stub_calls::Done;

/// The mark of the thread's next event, which is this: after these marks of a run, the oldest first, it has its place, steps, keys,
/// tickets and clock. `done` is what is done in the call of a Call or a Ret.
///
/// `AllocError` where there is no memory.
pub fn next_event(
    alloc: Global,
    inputs: Inputs<'_>,
    marks: &[Mark],
    thread: u8,
    kind: EventKind,
    done: &Done,
) -> Result<Mark, AllocError>
    requires { IsPast (world_of inputs) marks.now }
    ensures { IfOk result (IsEventOf (past marks.now) thread (kind_of kind) done.now) }
{
    events_can_be_stamped();
    runs_are_short();
    let keys = event_keys(alloc, marks, thread, &kind, done)?;
    let stamp = stamp(alloc, marks, thread, &keys)?;
    let index = count(marks, Link::Thread(thread));
    Ok(Mark {
        thread,
        side: Side::Replay,
        index,
        act: event_with(kind, stamp),
    })
}

// An event of this kind, with the numbers of the stamp.
fn event_with(kind: EventKind, stamp: EventStamp) -> Act
    ensures { act_of result ≡ event_with (kind_of kind) stamp }
{
    Act::Made(Event {
        kind,
        steps: stamp.steps,
        keys: stamp.keys,
        clock: stamp.clock,
    })
}

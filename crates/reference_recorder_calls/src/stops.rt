//! The Stop of a thread in a run that makes no more steps.

ghost use Rattle.std.specs.Prelude.{◌≡◌, ◌+◌, ◌<◌, ◌^◌, length};
ghost use Rattle.replay_runs.specs.Runs.{OfThread, last_clock, new_events};
ghost use Rattle.whole_runs.specs.World.{World};
ghost use Rattle.whole_runs.specs.Ends.{stop_of};
ghost use Rattle.reference_recorder_marks.specs.Marks.{mark_of, past};

use crate::faults::fault_of;
use marks::Side;
use reference_recorder_marks::{Act, Event, EventKind, Mark};
use reference_recorder_stamps::{Link, count, last_clock, steps_since};
use run_events::Marks;

/// The Stop of the thread after these marks: it tells the fault that the thread met, if it met one.
pub fn stop_of(marks: &[Mark], thread: u8) -> Mark
    requires few { length marks.now + 1 < 2 ^ 32 }
    requires clock { last_clock (new_events (OfThread thread) (past marks.now)) < 4294967295 }
    ensures { (w : World) → mark_of result ≡ stop_of w (past marks.now) thread }
{
    let fault = fault_of(marks, thread);
    let steps = steps_since(marks, thread);
    let before = last_clock(marks, Link::Thread(thread));
    let clock = before + 1;
    let index = count(marks, Link::Thread(thread));
    let event = Event {
        kind: EventKind::Stop { fault },
        steps,
        keys: Marks::new(),
        clock,
    };
    Mark {
        thread,
        side: Side::Replay,
        index,
        act: Act::Made(event),
    }
}

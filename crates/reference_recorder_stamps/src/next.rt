//! The numbers of the next event.

ghost use Rattle.std.specs.Prelude.{◌≡◌, ◌+◌, ◌<◌, ◌^◌, length, map, IfOk};
ghost use Rattle.run_events.specs.declared.key.KeyMark.{KeyMark};
ghost use Rattle.reference_recorder_marks.specs.Marks.{past};
ghost use Rattle.reference_recorder_stamps.specs.Numbers.{ClocksFit, IsStampOf, SeesEvents, latest, ticketed};

use crate::links::Link;
use crate::numbers::{count, last_clock, steps_since};
use reference_recorder_marks::Mark;
use run_events::{Key, KeyMark, Marks};
use std::alloc::{AllocError, Global};
use steps_above_stamps::EventStamp;

/// The keys, each with the number of events that have it.
fn ticketed(alloc: Global, marks: &[Mark], keys: &[Key]) -> Result<Vec<KeyMark>, AllocError>
    requires { length marks.now + 1 < 2 ^ 32 }
    ensures { IfOk result (λ qs. qs.items ≡ ticketed (past marks.now) keys.now) }
{
    let mut tickets = Vec::new(alloc);
    for key in keys {
        let ticket = count(marks, Link::Key(*key));
        tickets.push(KeyMark { key: *key, ticket })?;
    }
    Ok(tickets)
}

/// The greatest clock of the last events of the thread and with each of the keys.
fn latest(marks: &[Mark], thread: u8, keys: &[Key]) -> u32
    ensures { result ≡ latest (past marks.now) thread keys.now }
{
    let mut clock = 0;
    for key in keys {
        let more = last_clock(marks, Link::Key(*key));
        clock = more.max(clock);
    }
    let own = last_clock(marks, Link::Thread(thread));
    own.max(clock)
}

/// What the record of the thread's next event has besides its thread and what happens, where it has these keys.
///
/// `AllocError` where there is no memory.
pub fn stamp(
    alloc: Global,
    marks: &[Mark],
    thread: u8,
    keys: &[Key],
) -> Result<EventStamp, AllocError>
    requires few { length marks.now + 1 < 2 ^ 32 }
    requires events { SeesEvents (past marks.now) }
    requires clocks { ClocksFit (past marks.now) }
    ensures keys { IfOk result (λ s. map (λ (q : KeyMark). q.key) s.keys ≡ keys.now) }
    ensures numbers { IfOk result (IsStampOf (past marks.now) thread) }
{
    let tickets = ticketed(alloc, marks, keys)?;
    let before = latest(marks, thread, keys);
    let steps = steps_since(marks, thread);
    let clock = before + 1;
    let keys = Marks::from_vec(alloc, tickets)?;
    Ok(EventStamp { steps, clock, keys })
}

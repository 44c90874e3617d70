//! The events of a file, and which of them others need. An event is given by its name and its record, or by the records
//! before it in the file and its own.

ghost use Rattle.std.specs.Prelude.{◌≡◌, ◌<◌, ◌^◌, length};
ghost use Rattle.std.specs.Bool.{OnTrue, OnFalse};
ghost use Rattle.run_events.specs.declared.key.KeyMark.{KeyMark};
ghost use Rattle.log_closure.specs.Events.{LogEvent, In, HasMark, event_of, events_of};
ghost use Rattle.log_closure.specs.Predecessors.{HoldsPredecessors, next};
ghost use Rattle.log_closure.specs.Wrong.{IsTwice};
ghost use Rattle.log_reference.specs.Preceding.{ThreadHolds};

use crate::marks::{has, mark_before, repeats};
use run_events::{EventName, KeyMark, Record};

/// The name of the event that stands after these records in the file.
pub fn name_of(before: &[Record], entry: &Record) -> EventName
    requires { length before.now < 2 ^ 32 }
    ensures { result ≡ (event_of before.now entry.now).name }
{
    let mut index = 0;
    for other in before {
        if other.thread == entry.thread {
            index += 1;
        }
    }
    EventName {
        thread: entry.thread,
        index,
    }
}

/// Whether an event of the file has the key with the ticket.
pub fn any_has(records: &[Record], mark: &KeyMark) -> bool
    ensures there { OnTrue result (HasMark (events_of records.now) mark.now) }
    ensures none { OnFalse result (HasMark (events_of records.now) mark.now → ⊥) }
{
    for entry in records {
        let keys = entry.keys.unpacked();
        if has(keys.as_slice(), mark) {
            return true;
        }
    }
    false
}

/// Whether one of the keys stands with its ticket at an event of the file.
fn shares(records: &[Record], marks: &[KeyMark]) -> bool
    ensures there { OnTrue result ((m : KeyMark) × In m marks.now × HasMark (events_of records.now) m) }
    ensures none { OnFalse result ((m : KeyMark) → In m marks.now → HasMark (events_of records.now) m → ⊥) }
{
    for mark in marks {
        if any_has(records, mark) {
            return true;
        }
    }
    false
}

/// Whether a key of the event that stands after these in the file was there before with its ticket.
pub fn is_twice(before: &[Record], entry: &Record) -> bool
    ensures there { OnTrue result (IsTwice (events_of before.now) (event_of before.now entry.now)) }
    ensures none { OnFalse result (IsTwice (events_of before.now) (event_of before.now entry.now) → ⊥) }
{
    let keys = entry.keys.unpacked();
    let marks = keys.as_slice();
    shares(before, marks) || repeats(marks)
}

/// Whether the ticket is above 0 and no event of the file has the key with the ticket before.
fn lacks_before(records: &[Record], mark: &KeyMark) -> bool
    ensures there { OnTrue result ((m : KeyMark) × (mark.now ≡ next m) ×
        (HasMark (events_of records.now) m → ⊥)) }
    ensures none { OnFalse result ((m : KeyMark) → mark.now ≡ next m → HasMark (events_of records.now) m) }
{
    match mark_before(mark) {
        Some(earlier) => !any_has(records, &earlier),
        None => false,
    }
}

/// Whether for one of the keys with a ticket above 0 no event of the file has it with the ticket before.
pub fn lacks(records: &[Record], marks: &[KeyMark]) -> bool
    ensures there { OnTrue result ((m : KeyMark) × In (next m) marks.now ×
        (HasMark (events_of records.now) m → ⊥)) }
    ensures none { OnFalse result ((m : KeyMark) → In (next m) marks.now →
        HasMark (events_of records.now) m) }
{
    for mark in marks {
        if lacks_before(records, mark) {
            return true;
        }
    }
    false
}

/// Whether an event of the file has the name.
fn stands(records: &[Record], name: EventName) -> bool
    requires { length records.now < 2 ^ 32 }
    ensures there { OnTrue result ((e : LogEvent) × In e (events_of records.now) × (e.name ≡ name)) }
    ensures none { OnFalse result ((e : LogEvent) → In e (events_of records.now) → e.name ≡ name → ⊥) }
{
    for (at, entry) in records.iter().enumerate() {
        if name_of(&records[..at], entry) == name {
            return true;
        }
    }
    false
}

/// Whether the name is the first of its thread, or an event of the file has the name before.
fn follows(records: &[Record], name: EventName) -> bool
    requires { length records.now < 2 ^ 32 }
    ensures there { OnTrue result (ThreadHolds (events_of records.now) name) }
    ensures none { OnFalse result (ThreadHolds (events_of records.now) name → ⊥) }
{
    if name.index == 0 {
        return true;
    }
    stands(
        records,
        EventName {
            thread: name.thread,
            index: name.index - 1,
        },
    )
}

/// Whether the file holds the direct predecessors of the event.
pub fn holds_predecessors(records: &[Record], name: EventName, entry: &Record) -> bool
    requires { length records.now < 2 ^ 32 }
    ensures there { OnTrue result (HoldsPredecessors (events_of records.now)
        (record { name = name; entry = entry.now })) }
    ensures none { OnFalse result (HoldsPredecessors (events_of records.now)
        (record { name = name; entry = entry.now }) → ⊥) }
{
    let keys = entry.keys.unpacked();
    follows(records, name) && !lacks(records, keys.as_slice())
}

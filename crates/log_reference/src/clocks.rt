//! The clock of an event, from the clocks of its direct predecessors.

ghost use Rattle.std.specs.Prelude.{◌≡◌, ◌<◌, ◌^◌, length};
ghost use Rattle.std.specs.Bool.{OnTrue, OnFalse};
ghost use Rattle.run_events.specs.declared.key.KeyMark.{KeyMark};
ghost use Rattle.log_closure.specs.Events.{In, HasMark, event_of, events_of};
ghost use Rattle.log_closure.specs.Predecessors.{next};
ghost use Rattle.log_closure.specs.Wrong.{IsGreatestBefore, IsClockWrong};
ghost use Rattle.log_reference.specs.Preceding.{LeadsTo};

use crate::events::{any_has, holds_predecessors, name_of};
use crate::marks::{has, mark_before};
use run_events::{EventName, KeyMark, Record};

/// Whether the key with the ticket before is one of `own`, and at no event before.
fn comes_from(before: &[Record], own: &[KeyMark], mark: &KeyMark) -> bool
    ensures there { OnTrue result ((m : KeyMark) × (mark.now ≡ next m) ×
        (HasMark (events_of before.now) m → ⊥) × In m own.now) }
    ensures none { OnFalse result ((m : KeyMark) → mark.now ≡ next m →
        (HasMark (events_of before.now) m → ⊥) → In m own.now → ⊥) }
{
    match mark_before(mark) {
        Some(earlier) => has(own, &earlier) && !any_has(before, &earlier),
        None => false,
    }
}

/// Whether one of `marks` comes from one of `own`.
fn leads_by_key(before: &[Record], own: &[KeyMark], marks: &[KeyMark]) -> bool
    ensures there { OnTrue result ((m : KeyMark) × In (next m) marks.now ×
        (HasMark (events_of before.now) m → ⊥) × In m own.now) }
    ensures none { OnFalse result ((m : KeyMark) → In (next m) marks.now →
        (HasMark (events_of before.now) m → ⊥) → In m own.now → ⊥) }
{
    for mark in marks {
        if comes_from(before, own, mark) {
            return true;
        }
    }
    false
}

/// Whether the event of `earlier`, which stands after these in the file, is a direct predecessor of the event with
/// this name and record.
fn leads(before: &[Record], earlier: &Record, name: EventName, entry: &Record) -> bool
    requires { length before.now < 2 ^ 32 }
    ensures there { OnTrue result (LeadsTo (record { name = name; entry = entry.now })
        (events_of before.now) (event_of before.now earlier.now)) }
    ensures none { OnFalse result (LeadsTo (record { name = name; entry = entry.now })
        (events_of before.now) (event_of before.now earlier.now) → ⊥) }
{
    let own = name_of(before, earlier);
    if own.thread == name.thread && u64::from(own.index) + 1 == u64::from(name.index) {
        return true;
    }
    let earlier_keys = earlier.keys.unpacked();
    let keys = entry.keys.unpacked();
    leads_by_key(before, earlier_keys.as_slice(), keys.as_slice())
}

/// The greatest clock of the event's direct predecessors in the file, and 0 where it has none.
fn greatest_before(records: &[Record], name: EventName, entry: &Record) -> u32
    requires { length records.now < 2 ^ 32 }
    ensures { IsGreatestBefore (events_of records.now) (record { name = name; entry = entry.now }) result }
{
    let mut greatest = 0;
    for (at, earlier) in records.iter().enumerate() {
        if leads(&records[..at], earlier, name, entry) {
            greatest = earlier.clock.max(greatest);
        }
    }
    greatest
}

/// Whether the event's direct predecessors are all there, and its clock isn't 1 plus the greatest of theirs.
pub fn is_clock_wrong(records: &[Record], name: EventName, entry: &Record) -> bool
    requires { length records.now < 2 ^ 32 }
    ensures there { OnTrue result (IsClockWrong (events_of records.now)
        (record { name = name; entry = entry.now })) }
    ensures none { OnFalse result (IsClockWrong (events_of records.now)
        (record { name = name; entry = entry.now }) → ⊥) }
{
    if !holds_predecessors(records, name, entry) {
        return false;
    }
    u64::from(entry.clock) != u64::from(greatest_before(records, name, entry)) + 1
}

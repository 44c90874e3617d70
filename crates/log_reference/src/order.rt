//! The first event of a file that doesn't fit.

ghost use Rattle.std.specs.Prelude.{◌≡◌, ◌<◌, ◌^◌, ◌↔◌, None, Some, length, IfNone, IfSome};
ghost use Rattle.log_closure.specs.declared.error.OrderError.{OrderError};
ghost use Rattle.log_closure.specs.Events.{event_of, events_of};
ghost use Rattle.log_closure.specs.Wrong.{AreRight, IsFirstWrong, IsRight, IsWrong};

use crate::clocks::is_clock_wrong;
use crate::events::{is_twice, lacks, name_of};
use log_closure::OrderError;
use run_events::Record;

/// What is wrong with the event that stands after these in the file.
fn wrong(whole: bool, records: &[Record], before: &[Record], entry: &Record) -> Option<OrderError>
    requires few { length records.now < 2 ^ 32 }
    requires short { length before.now < 2 ^ 32 }
    ensures right { IfNone result (IsRight whole (events_of records.now) (events_of before.now)
        (event_of before.now entry.now)) }
    ensures wrong { IfSome result (λ error. IsWrong whole (events_of records.now) (events_of before.now)
        (event_of before.now entry.now) error) }
{
    let name = name_of(before, entry);
    if is_twice(before, entry) {
        return Some(OrderError::Twice(name));
    }
    let keys = entry.keys.unpacked();
    if whole && lacks(records, keys.as_slice()) {
        return Some(OrderError::Missing(name));
    }
    if is_clock_wrong(records, name, entry) {
        return Some(OrderError::Clock(name));
    }
    None
}

/// What is wrong with the first event, in file order, that doesn't fit the others, where one doesn't: `Twice`, `Missing`
/// (only in a whole log) or `Clock`, in this order for one event. `records` are those of a log, or of a part of one, in
/// file order. It holds each event against all others, so that it takes at least quadratic time; it takes no memory.
pub fn first_wrong_event(whole: bool, records: &[Record]) -> Option<OrderError>
    requires { length records.now < 2 ^ 32 }
    ensures right { (result ≡ None) ↔ AreRight whole (events_of records.now) (events_of records.now) }
    ensures wrong { (error : OrderError) → (result ≡ Some error) ↔ IsFirstWrong whole
        (events_of records.now) error }
{
    for (at, entry) in records.iter().enumerate() {
        if let Some(error) = wrong(whole, records, &records[..at], entry) {
            return Some(error);
        }
    }
    None
}

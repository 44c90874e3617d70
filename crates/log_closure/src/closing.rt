//! The closed part of a log.

ghost use Rattle.std.specs.Prelude.{◌≡◌, ◌≢◌, ◌<◌, ◌≤◌, ◌^◌, ◌⊎◌, [], ℕ, length, slice_index_or, true, IsTrue, OnOk, IfOk, IsErrOf, IsOkUnless};
ghost use Rattle.std.specs.Global.{Vec};
ghost use Rattle.std.specs.List.{All};
ghost use Rattle.log_closure.specs.declared.error.OrderError.{OrderError};
ghost use Rattle.log_closure.specs.declared.error.OrderError.TheVariants.{Memory};
ghost use Rattle.log_closure.specs.Events.{LogEvent, In, events_of};
ghost use Rattle.log_closure.specs.Wrong.{AreRight, IsFirstWrong};
ghost use Rattle.log_closure.specs.Closed.{IsClosedPart};
ghost use Rattle.log_closure.specs.Chains.{IsClock, CountUp};
ghost use Rattle.log_closure.specs.Places.{events_at, thread_places};
ghost use Rattle.log_closure.specs.FirstWrong.{first_wrong};
ghost use Rattle.log_closure.specs.Tables.{Answers};
ghost use Rattle.log_closure.specs.Growing.{IsGrownPart};

use crate::check::check;
use crate::error::OrderError;
use crate::grow::grow;
use crate::part::Closed;
use crate::place::{LogPlace, places_of};
use log_codec::Kept;
use run_events::Record;
use std::alloc::{AllocError, Global};

/// The places of the closed part, in order.
pub(crate) fn closed_places(
    alloc: Global,
    records: &[Record],
    whole: bool,
) -> Result<Vec<LogPlace>, OrderError>
    requires { length records.now < 2 ^ 32 }
    ensures check { Answers result (first_wrong whole (events_of records.now) [] (events_of records.now)) }
    ensures part { IfOk result (λ v. IsGrownPart (events_of records.now) (events_at records.now v.items)) }
    ensures within { IfOk result (λ v. All (λ p. p.at < length records.now) v.items) }
    ensures few { IfOk result (λ v. length v.items ≤ length records.now) }
{
    let mut order = places_of(alloc, records)?;
    check(alloc, records, &order, whole)?;
    order.sort()?;
    if whole {
        return Ok(order);
    }
    let part = grow(alloc, records, &order)?;
    Ok(part)
}

/// An empty list for each thread.
fn empty_lists(alloc: Global) -> Result<Vec<Vec<u32>>, AllocError>
    ensures wide { IfOk result (λ v. length v.items ≡ 256) }
    ensures empty { IfOk result (λ v. (t : ℕ) → t < 256 → (d : Vec ℕ) →
        (slice_index_or v.items t d).items ≡ []) }
{
    let mut lists = Vec::with_capacity(alloc, 256)?;
    for _thread in 0..256u32 {
        lists.push(Vec::new(alloc))?;
    }
    Ok(lists)
}

/// For each thread the places of its events in the file, by index.
fn by_thread(alloc: Global, order: &[LogPlace]) -> Result<Vec<Vec<u32>>, AllocError>
    ensures wide { IfOk result (λ v. length v.items ≡ 256) }
    ensures lists { IfOk result (λ v. (t : ℕ) → t < 256 → (d : Vec ℕ) →
        (slice_index_or v.items t d).items ≡ thread_places t order.now) }
{
    let mut lists = empty_lists(alloc)?;
    for place in order {
        let list = &mut lists[usize::from(place.thread)];
        list.push(place.at)?;
    }
    Ok(lists)
}

/// The closed part of what is kept of a log: the union of all sets of kept events that hold the direct predecessors
/// of each of them, in the order of clock and thread. Those are the event before it in its thread, and for each of its
/// keys with a ticket above 0 the event that has the key with the ticket before (Lamport 1978).
///
/// Refused, with the name of the first event in file order that doesn't fit: `Twice`, `Missing` (only in a whole log)
/// and `Clock`, in this order for one event.
pub fn closed(alloc: Global, kept: Kept) -> Result<Closed, OrderError>
    // what passes fits, and what fits passes, but when out of memory
    ensures fits { OnOk result (AreRight kept.whole (events_of kept.records) (events_of kept.records)) }
    ensures passes { AreRight kept.whole (events_of kept.records) (events_of kept.records) →
        IsOkUnless result Memory }
    // the error named is the first in file order, and the first is named, but when out of memory
    ensures refused { (error : OrderError) → IsErrOf result error → error ≢ Memory →
        IsFirstWrong kept.whole (events_of kept.records) error }
    ensures first { (error : OrderError) → IsFirstWrong kept.whole (events_of kept.records) error →
        IsErrOf result error ⊎ IsErrOf result Memory }
    // the union of all closed sets, in order
    ensures part { IfOk result (λ c. IsClosedPart (events_of kept.records) c.events) }
    ensures whole { IfOk result (λ c. c.whole ≡ kept.whole) }
    // a whole log is kept whole
    ensures all { IfOk result (λ c. IsTrue kept.whole → (e : LogEvent) → In e (events_of kept.records) →
        In e c.events) }
    // each clock is the length of the longest causal chain that ends in its event
    ensures clocks { IfOk result (λ c. (e : LogEvent) → In e c.events → IsClock c.events e) }
    // indices and tickets count the events before that have the thread or key
    ensures counts { IfOk result (λ c. CountUp c.events) }
{
    let whole = kept.whole();
    let order = closed_places(alloc, kept.records(), whole)?;
    let by_thread = by_thread(alloc, &order)?;
    Ok(Closed::new(kept.into_records(), order, by_thread, whole))
}

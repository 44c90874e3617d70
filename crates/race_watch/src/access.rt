//! An access: whether it has to be tested, the first race, and what is kept of it.

ghost use Rattle.std.specs.Prelude.{◌≡◌, ◌+◌, ◌<◌, ◌≤◌, ℕ, true, not, length, IfErr, OnOk, OnErr, IsTrue, IsFalse, None};
ghost use Rattle.std.specs.List.{All};
ghost use Rattle.marks.specs.Ranges.{covers};
ghost use Rattle.race_watch.specs.declared.seen.Seen.{Seen};
ghost use Rattle.race_watch.specs.Stands.{IsNoted};
ghost use Rattle.race_watch.specs.Tables.{at, cells_of, seen_at, ArePut, AreTables, HasEither, HasEpoch, IsFirst};

use crate::bytes::{few, is_few, whole};
use crate::error::WatchError;
use crate::first::{Tested, earlier, first_hit};
use crate::seen::{Seen, take};
use crate::tables::Tables;
use memory_map::Range;

/// Whether the thread is seen at a glance to have accessed each of a few bytes since its last event, at this epoch, in a way that
/// counts for this one.
#[inline(always)]
pub fn is_settled(tables: &Tables, thread: u8, range: Range, write: bool, epoch: u32) -> bool
    requires tables { AreTables tables.now }
    requires thread { thread < tables.now.threads }
    requires before { (x : ℕ) → at tables.now true thread x ≤ epoch }
    ensures { IsTrue result → (x : ℕ) → covers range x ≡ true → at tables.now (not write) thread x ≡ epoch }
{
    match few(range) {
        None => false,
        Some(part) => tables.is_all_of_few(thread, !write, part, epoch),
    }
}

/// The same of other bytes.
pub fn is_settled_apart(tables: &Tables, thread: u8, range: Range, write: bool, epoch: u32) -> bool
    requires tables { AreTables tables.now }
    requires thread { thread < tables.now.threads }
    requires before { (x : ℕ) → at tables.now true thread x ≤ epoch }
    ensures { IsTrue result → (x : ℕ) → covers range x ≡ true → at tables.now (not write) thread x ≡ epoch }
{
    if is_few(range) {
        return false;
    }
    match whole(range) {
        None => false,
        Some(part) => tables.is_all(thread, !write, part, epoch),
    }
}

/// The least byte at which the access races with one that is kept, and the least thread of which one is.
pub fn first_race(tested: &Tested, seen: &[Seen], tables: &Tables) -> Option<(u64, u8)>
    requires seen { All (λ (s : Seen). s.thread < length tested.now.known.now) seen.now }
    requires tables { AreTables tables.now }
    requires known { tables.now.threads ≤ length tested.now.known.now }
    ensures { IsFirst tested.now.range (HasEither tested.now seen.now (at tables.now)) result }
{
    let found = tables.first(tested);
    if seen.is_empty() {
        return found;
    }
    match first_hit(tested, seen) {
        None => found,
        Some((addr, other)) => earlier(found, Some(addr), other),
    }
}

/// Keeps an access of a few bytes, which is no earlier than any of its thread, where a glance tells that it races with none that the
/// tables keep and that there is a place for it.
#[inline(always)]
pub fn take_few(tested: &Tested, tables: &mut Tables, place: u32) -> bool
    requires tables { AreTables tables.old }
    requires thread { tested.now.thread < tables.old.threads }
    requires known { tables.old.threads ≤ length tested.now.known.now }
    requires place { place + 1 < 4294967296 }
    requires before { (x : ℕ) → at tables.old true tested.now.thread x ≤ place + 1 }
    ensures tables { AreTables tables.new }
    ensures threads { tables.new.threads ≡ tables.old.threads }
    ensures free { IsTrue result → IsFirst tested.now.range (HasEpoch tested.now (at tables.old)) None }
    ensures put { IsTrue result → ArePut (at tables.old) (at tables.new) (seen_at tested.now place) }
    ensures unchanged { IsFalse result → tables.new ≡ tables.old }
{
    match few(tested.range) {
        None => false,
        Some(part) => {
            tables.is_quiet_of_few(tested, part)
                && tables.put_few(tested.thread, part, tested.write, place + 1)
        }
    }
}

/// Keeps an access, which is no earlier than any of its thread.
pub fn note(seen: &mut Vec<Seen>, tables: &mut Tables, one: Seen) -> Result<(), WatchError>
    requires tables { AreTables tables.old }
    requires thread { one.thread < tables.old.threads }
    requires place { one.place + 1 < 4294967296 }
    requires before { (x : ℕ) → at tables.old true one.thread x ≤ one.place + 1 }
    ensures tables { AreTables tables.new }
    ensures threads { tables.new.threads ≡ tables.old.threads }
    ensures noted { OnOk result (IsNoted seen.old.items seen.new.items (at tables.old) (at tables.new) one) }
    ensures unchanged { OnErr result (seen.new.items ≡ seen.old.items) }
    ensures same { OnErr result (cells_of tables.new ≡ cells_of tables.old) }
    ensures memory { IfErr result (λ e. e ≡ WatchError.Memory) }
{
    match whole(one.range) {
        None => take(seen, one),
        Some(part) => tables.put(one.thread, part, one.write, one.place + 1),
    }
}

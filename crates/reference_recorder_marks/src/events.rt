//! What the event of a mark says.

ghost use Rattle.std.specs.Prelude.{◌≡◌};
ghost use Rattle.causal_order.specs.Order.{is_listed, same_key, ticket_in};
ghost use Rattle.marks.specs.declared.side.Side.TheVariants.{Replay, System};
ghost use Rattle.marks.specs.Marks.{is_event};
ghost use Rattle.c_code.specs.MarkLists.{same_side};
ghost use Rattle.replay_runs.specs.Runs.{clock_of, counts, keys_of};
ghost use Rattle.reference_recorder_marks.specs.Marks.{act_of};

use crate::mark::{Act, Mark};
use marks::Side;
use run_events::{Key, KeyMark, UnpackedMarks};

/// Whether the mark stands above the cut, where a replay sees it.
pub fn is_above(mark: &Mark) -> bool
    ensures { result ≡ same_side mark.now.side Replay }
{
    match mark.side {
        Side::Replay => true,
        Side::System => false,
    }
}

/// Whether it stands below the cut.
pub fn is_below(mark: &Mark) -> bool
    ensures { result ≡ same_side mark.now.side System }
{
    match mark.side {
        Side::Replay => false,
        Side::System => true,
    }
}

/// Whether the mark is an event.
pub fn is_event(act: &Act) -> bool
    ensures { result ≡ is_event (act_of act.now) }
{
    match act {
        Act::Turn => false,
        Act::Load { .. } => false,
        Act::Store { .. } => false,
        Act::Enter { .. } => false,
        Act::Leave { .. } => false,
        Act::Step { .. } => false,
        Act::Fault { .. } => false,
        Act::Made(_) => true,
    }
}

/// The clock of the event; 0 of any other mark.
pub fn clock_of(act: &Act) -> u32
    ensures { result ≡ clock_of (act_of act.now) }
{
    match act {
        Act::Turn => 0,
        Act::Load { .. } => 0,
        Act::Store { .. } => 0,
        Act::Enter { .. } => 0,
        Act::Leave { .. } => 0,
        Act::Step { .. } => 0,
        Act::Fault { .. } => 0,
        Act::Made(event) => event.clock,
    }
}

/// How many steps the mark is: 1, but for an event or a fault 0.
pub fn counts(act: &Act) -> u32
    ensures { result ≡ counts (act_of act.now) }
{
    match act {
        Act::Turn => 1,
        Act::Load { .. } => 1,
        Act::Store { .. } => 1,
        Act::Enter { .. } => 1,
        Act::Leave { .. } => 1,
        Act::Step { .. } => 1,
        Act::Fault { .. } => 0,
        Act::Made(_) => 0,
    }
}

/// The keys of the event, each with its ticket; none of any other mark.
pub fn keys_of(act: &Act) -> UnpackedMarks<'_>
    ensures { result ≡ keys_of (act_of act.now) }
{
    match act {
        Act::Turn => UnpackedMarks::none(),
        Act::Load { .. } => UnpackedMarks::none(),
        Act::Store { .. } => UnpackedMarks::none(),
        Act::Enter { .. } => UnpackedMarks::none(),
        Act::Leave { .. } => UnpackedMarks::none(),
        Act::Step { .. } => UnpackedMarks::none(),
        Act::Fault { .. } => UnpackedMarks::none(),
        Act::Made(event) => event.keys.unpacked(),
    }
}

/// Whether the event has the key.
pub fn has_key(act: &Act, key: Key) -> bool
    ensures { result ≡ is_listed (keys_of (act_of act.now)) key }
{
    is_listed(keys_of(act).as_slice(), key)
}

/// Whether two keys are the same.
pub fn same_key(one: Key, other: Key) -> bool
    ensures { result ≡ same_key one other }
{
    one.class.number() == other.class.number() && one.value == other.value
}

// Whether one of the keys is this one.
fn is_listed(keys: &[KeyMark], key: Key) -> bool
    ensures { result ≡ is_listed keys.now key }
{
    for mark in keys {
        if same_key(mark.key, key) {
            return true;
        }
    }
    false
}

/// The ticket of the key at the event; 0 where the event doesn't have it.
pub fn ticket_of(act: &Act, key: Key) -> u32
    ensures { result ≡ ticket_in (keys_of (act_of act.now)) key }
{
    ticket_in(keys_of(act).as_slice(), key)
}

// The ticket of the first one of the keys that is this one.
fn ticket_in(keys: &[KeyMark], key: Key) -> u32
    ensures { result ≡ ticket_in keys.now key }
{
    for mark in keys {
        if same_key(mark.key, key) {
            return mark.ticket;
        }
    }
    0
}

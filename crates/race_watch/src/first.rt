//! The first byte at which an access races with an earlier one.

ghost use Rattle.std.specs.Prelude.{◌≡◌, ◌<◌, ℕ, false, length, true, IsTrue};
ghost use Rattle.std.specs.List.{All};
ghost use Rattle.marks.specs.Places.{is_constant};
ghost use Rattle.marks.specs.Ranges.{covers, IsInRange, IsFirstIn};
ghost use Rattle.race_watch.specs.Hits.{Hits, IsFirstHit, earlier};
ghost use Rattle.race_watch.specs.declared.seen.Seen.{Seen};

use crate::seen::Seen;
use memory_map::{CONSTANTS, REPLAY_GLOBALS, Range};

/// The least byte of both ranges that is no constant.
fn first_shared(mine: Range, other: Range) -> Option<u64>
    ensures { IsFirstIn mine (λ x. IsInRange other x × (is_constant x ≡ false)) result }
{
    let first = mine.first_common(other)?;
    if !CONSTANTS.has(first) {
        return Some(first);
    }
    if mine.has(REPLAY_GLOBALS) && other.has(REPLAY_GLOBALS) {
        return Some(REPLAY_GLOBALS);
    }
    None
}

/// Whether the range is one of constants alone, which are read alone.
pub fn has_constants_alone(range: Range) -> bool
    ensures { IsTrue result → (x : ℕ) → covers range x ≡ true → is_constant x ≡ true }
{
    range.addr >= CONSTANTS.addr
        && range.addr < REPLAY_GLOBALS
        && range.len <= REPLAY_GLOBALS - range.addr
}

/// An access that is to be tested: its thread, how many events of each thread it knows, its bytes, and whether it writes them.
#[derive(Drop)]
pub struct Tested<'a> {
    pub thread: u8,
    pub known: &'a [u32],
    pub range: Range,
    pub write: bool,
}

/// The least byte at which the access races with one that was seen.
fn hit(tested: &Tested, seen: &Seen) -> Option<u64>
    requires { seen.now.thread < length tested.now.known.now }
    ensures { IsFirstIn tested.now.range (Hits tested.now seen.now) result }
{
    let unordered = seen.thread != tested.thread
        && (tested.write || seen.write)
        && tested.known[seen.thread as usize] <= seen.place;
    if unordered {
        return first_shared(tested.range, seen.range);
    }
    None
}

/// The first of two races, the one that is known so far and one with the thread at the byte.
pub fn earlier(best: Option<(u64, u8)>, addr: Option<u64>, other: u8) -> Option<(u64, u8)>
    ensures { result ≡ earlier best addr other }
{
    match (best, addr) {
        (_, None) => best,
        (None, Some(addr)) => Some((addr, other)),
        (Some((at, thread)), Some(addr)) => {
            if addr < at || (addr == at && other < thread) {
                return Some((addr, other));
            }
            best
        }
    }
}

/// The least byte at which the access races with one that was seen, and the least thread of which one is.
pub fn first_hit(tested: &Tested, seen: &[Seen]) -> Option<(u64, u8)>
    requires { All (λ (s : Seen). s.thread < length tested.now.known.now) seen.now }
    ensures { IsFirstHit tested.now seen.now result }
{
    let mut best = None;
    for one in seen {
        best = earlier(best, hit(tested, one), one.thread);
    }
    best
}

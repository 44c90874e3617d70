// The tests of one access, in their order.
ghost use Rattle.std.specs.Prelude.{◌≡◌, ◌⊎◌, ◌+◌, ◌^◌, ◌<◌, ◌≤◌, ◌↔◌, true, List, IsTrue, IsOk, IfOk, Err};
ghost use Rattle.marks.specs.Ranges.{IsFirstIn, NoneIn};
ghost use Rattle.memory_map.specs.declared.areas.TheConstants.{REPLAY_MEMORY, SYSTEM_MEMORY};
ghost use Rattle.space_memory_bytes.specs.Areas.{AreaState, AllLive, extents, LiesIn};
ghost use Rattle.space_memory_access.specs.declared.refusal.Refusal.{Refusal};
ghost use Rattle.space_memory_access.specs.Accesses.{IsForeign, IsWithoutRight, IsPendingTo, IsConstantTo, IsAllowed, IsRefused, IsOpen};
ghost use Rattle.space_memory_access.specs.Held.{IsPending, IsServedWhole};

use crate::Refusal;
use crate::regions::{Regions, earlier};
use marks::Side;
use memory_map::{CONSTANTS, REPLAY_MEMORY, Range, SYSTEM_MEMORY};
use space_memory_bytes::LiveBytes;

/// A thread's code of one side reads a range of bytes, or writes it.
#[derive(Clone, Copy)]
pub struct Access {
    pub side: Side,
    pub thread: u8,
    pub range: Range,
    pub write: bool,
}

/// Tests the access: that no byte is of the other side, that each is live, that none is pending for replay code, and that
/// no constant is written. The first test that fails refuses it.
#[inline(never)]
pub fn check_access(bytes: &LiveBytes, held: &Regions, access: Access) -> Result<(), Refusal>
    ensures allowed { IsOk result ↔ IsAllowed bytes.now held.now.regions access }
    ensures refused { (r : Refusal) → (result ≡ Err r) ↔ IsRefused bytes.now held.now.regions access r }
    ensures ends { IfOk result (λ _. access.range.addr + access.range.len < 2 ^ 64) }
    ensures one_area { IfOk result (λ _. 1 ≤ access.range.len → LiesIn access.range (extents bytes.now)) }
{
    if let Some(addr) = first_foreign(bytes, held, access) {
        return Err(Refusal::OtherSpace { addr });
    }
    if let Some(addr) = bytes.first_dead(access.range) {
        return Err(Refusal::NotLive { addr });
    }
    if let Some(addr) = first_pending(held, access) {
        return Err(Refusal::Pending { addr });
    }
    if let Some(addr) = first_constant(access) {
        return Err(Refusal::ReadOnly { addr });
    }
    Ok(())
}

/// Whether only a dead byte can refuse the access of up to eight bytes, as its addresses and what is held show at a glance.
#[inline(always)]
pub fn is_open(held: &Regions, access: Access) -> bool
    requires { access.range.len ≤ 8 }
    ensures open { IsTrue result ↔ IsOpen held.now.regions access }
    ensures allowed { IsTrue result → (bytes : List AreaState) →
        AllLive bytes access.range.addr access.range.len → IsAllowed bytes held.now.regions access }
    ensures not_refused { IsTrue result → (bytes : List AreaState) →
        AllLive bytes access.range.addr access.range.len →
        (r : Refusal) → ¬ IsRefused bytes held.now.regions access r }
{
    if !is_past_constants(access) {
        return false;
    }
    match access.side {
        Side::Replay => keeps_above(held, access.range),
        Side::System => keeps_below(held, access),
    }
}

// Whether the access, if it writes, lies past the constants.
#[inline(always)]
fn is_past_constants(access: Access) -> bool
    ensures { IsTrue result ↔ (access.write ≡ true → REPLAY_MEMORY.addr ≤ access.range.addr) }
{
    !access.write || access.range.addr >= REPLAY_MEMORY.addr
}

// Whether replay code touches neither system memory nor a pending byte in the range of up to eight bytes.
#[inline(always)]
fn keeps_above(held: &Regions, range: Range) -> bool
    requires { range.len ≤ 8 }
    ensures { IsTrue result ↔ ((range.addr + range.len ≤ SYSTEM_MEMORY.addr) ×
        NoneIn range (IsPending held.now.regions)) }
{
    range.addr <= SYSTEM_MEMORY.addr - range.len && held.is_free(range)
}

// Whether system code stays out of replay memory with up to eight bytes, or in one region that serves it.
#[inline(always)]
fn keeps_below(held: &Regions, access: Access) -> bool
    requires { access.range.len ≤ 8 }
    ensures { IsTrue result ↔ ((REPLAY_MEMORY.addr + REPLAY_MEMORY.len ≤ access.range.addr) ⊎
        (access.range.addr + access.range.len ≤ REPLAY_MEMORY.addr) ⊎
        IsServedWhole held.now.regions access.thread access.write access.range) }
{
    let range = access.range;
    if range.addr >= REPLAY_MEMORY.addr + REPLAY_MEMORY.len {
        return true;
    }
    if range.addr <= REPLAY_MEMORY.addr - range.len {
        return true;
    }
    held.serves_whole(access.thread, access.write, range)
}

// The least byte of the access that is of the other side.
fn first_foreign(bytes: &LiveBytes, held: &Regions, access: Access) -> Option<u64>
    ensures { IsFirstIn access.range (IsForeign bytes.now held.now.regions access) result }
{
    match access.side {
        Side::Replay => access.range.first_common(SYSTEM_MEMORY),
        Side::System => first_without_right(bytes, held, access),
    }
}

// The least byte of the access that replay code may not touch.
fn first_pending(held: &Regions, access: Access) -> Option<u64>
    ensures { IsFirstIn access.range (IsPendingTo access.side held.now.regions) result }
{
    match access.side {
        Side::Replay => held.first_pending(access.range),
        Side::System => None,
    }
}

// The least byte of the access that is a constant which is written.
fn first_constant(access: Access) -> Option<u64>
    ensures { IsFirstIn access.range (IsConstantTo access.write) result }
{
    if access.write {
        access.range.first_common(CONSTANTS)
    } else {
        None
    }
}

// The least byte of replay memory that system code touches without right.
fn first_without_right(bytes: &LiveBytes, held: &Regions, access: Access) -> Option<u64>
    ensures { IsFirstIn access.range (IsWithoutRight bytes.now held.now.regions access) result }
{
    let first = access.range.first_common(REPLAY_MEMORY)?;
    let replay_end = REPLAY_MEMORY.addr + REPLAY_MEMORY.len;
    let end = access
        .range
        .addr
        .saturating_add(access.range.len)
        .min(replay_end);
    let part = Range {
        addr: first,
        len: end - first,
    };
    let dead = bytes.first_dead(part);
    let unserved = held.first_unserved(access.thread, access.write, part);
    earlier(dead, unserved)
}

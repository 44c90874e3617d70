// The region of a range, as a call holds it.
ghost use Rattle.std.specs.Prelude.{◌≡◌, ◌+◌, ◌^◌, ◌<◌, true, IfOk, IfSome};
ghost use Rattle.marks.specs.Ranges.{IsFirstIn};
ghost use Rattle.space_memory_bytes.specs.Areas.{AllLive};
ghost use Rattle.space_memory_access.specs.Accesses.{IsPendingTo};
ghost use Rattle.space_memory.specs.Held.{region_range, holder_of, IsRegionOf};

use marks::Side;
use memory_map::{Bytes8, Range};
use space_memory_access::{Holder, OpenCall, Region, Regions};
use space_memory_bytes::LiveBytes;
use std::alloc::{AllocError, Global};

/// The region of a range: that of a NULL pointer is empty.
pub fn region_range(range: Range) -> Range
    ensures { result ≡ region_range range }
{
    if range.addr == 0 {
        Range { addr: 0, len: 0 }
    } else {
        range
    }
}

/// How a call holds a region: to read it, or to write it.
pub fn holder_of(write: bool, call: OpenCall) -> Holder
    ensures { result ≡ holder_of write call }
{
    if write {
        Holder::Out(call)
    } else {
        Holder::In(call)
    }
}

/// A region of live bytes, with a copy of them where they are to be written.
pub fn region_of(
    alloc: Global,
    bytes: &LiveBytes,
    range: Range,
    holder: Holder,
) -> Result<Region, AllocError>
    requires live { AllLive bytes.now range.addr range.len }
    requires ends { range.addr + range.len < 2 ^ 64 }
    ensures { IfOk result (IsRegionOf bytes.now range holder) }
{
    let before = if holder.is_pending() {
        Bytes8::from(bytes.copy(alloc, range)?)
    } else {
        Bytes8::new(alloc)
    };
    Ok(Region {
        range,
        before,
        holder,
    })
}

/// The least byte of the range that code of the side may not touch while it is pending.
pub fn first_pending(held: &Regions, side: Side, range: Range) -> Option<u64>
    ensures { IsFirstIn range (IsPendingTo side held.now.regions) result }
{
    match side {
        Side::Replay => held.first_pending(range),
        Side::System => None,
    }
}

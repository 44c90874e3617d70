// What memory tells of itself, and whether a call would be refused. Nothing is changed here.
ghost use Rattle.std.specs.Prelude.{◌≡◌, ◌+◌, ◌%◌, ◌^◌, ◌<◌, ◌↔◌, map, length, option_map, slice_get, IsTrue, IsOk, IsSomeAnd, IfOk, Err};
ghost use Rattle.std.specs.List.{range_with_len};
ghost use Rattle.memory_map.specs.declared.areas.TheConstants.{THREADS};
ghost use Rattle.space_memory_bytes.specs.Nexts.{IsNextOf};
ghost use Rattle.pool_list.specs.Blocks.{length_at};
ghost use Rattle.space_memory_access.specs.Held.{innermost, prepared_region};
ghost use Rattle.space_memory_access.specs.declared.refusal.Refusal.{Refusal};
ghost use Rattle.space_memory.specs.StackFrames.{stack_of, end_of};
ghost use Rattle.space_memory.specs.Sides.{frames_of};
ghost use Rattle.space_memory.specs.Spaces.{side_of};
ghost use Rattle.space_memory.specs.Frames.{IsEnterRefused};
ghost use Rattle.space_memory.specs.Releases.{outs_of, IsFilled, AllReturned, HasKey, IsReleaseRefused};
ghost use Rattle.space_memory.specs.Cells.{cell_at, IsLiveRow};

use crate::release::{check_release, is_filled, out_at};
use crate::{Cell, Spaces};
use marks::Side;
use memory_map::Range;
use space_memory_access::Refusal;

impl Spaces {
    /// The 16 bytes from the address on, which is a multiple of 16.
    pub fn cells(&self, row: u64) -> [Cell; 16]
        requires { row % 16 ≡ 0 }
        ensures { result ≡ map (λ i. cell_at self.now (row + i)) (range_with_len 0 16) }
    {
        let mut cells = [Cell::Dead; 16];
        for i in 0..16 {
            cells[i] = self.cell(row + i as u64);
        }
        cells
    }

    /// The next row of 16 bytes, from the address of a row on, that has a live byte.
    pub fn live_row(&self, from: u64) -> Option<u64>
        requires { from % 16 ≡ 0 }
        ensures { IsNextOf (IsLiveRow self.now) from result }
    {
        let addr = self.bytes.first_live(from)?;
        Some(addr / 16 * 16)
    }

    /// The region that is prepared under the key; `None` where the key isn't in use.
    pub fn prepared(&self, key: u64) -> Option<Range>
        ensures { result ≡ option_map (λ r. r.range) (prepared_region self.now.held.regions key) }
    {
        let region = self.held.prepared(key)?;
        Some(region.range)
    }

    /// The length of the side's live block that begins at the address.
    pub fn block(&self, side: Side, addr: u64) -> Option<u64>
        ensures { result ≡ length_at (side_of self.now.sides side).pool.blocks addr }
    {
        self.sides.of(side).block(addr)
    }

    /// Where a frame of `size` bytes would lie that the thread entered on the side, or why `enter` would refuse it.
    pub fn may_enter(&self, side: Side, thread: u8, size: u64) -> Result<u64, Refusal>
        requires { thread < THREADS }
        ensures place { IfOk result (λ addr. addr ≡
            end_of (stack_of (side_of self.now.sides side).stacks thread).base
            (frames_of (side_of self.now.sides side) thread)) }
        ensures refused { (r : Refusal) → (result ≡ Err r) ↔ IsEnterRefused
            (stack_of (side_of self.now.sides side).stacks thread) size r }
    {
        let space = self.sides.of(side);
        let addr = space.end(thread);
        if space.is_full(thread, size) {
            return Err(Refusal::StackFull { addr });
        }
        Ok(addr)
    }

    /// Whether `release` would close the thread's innermost call, or why it would refuse that.
    pub fn may_release(
        &self,
        thread: u8,
        used: &[u64],
        commit: Option<(u64, u64)>,
    ) -> Result<(), Refusal>
        requires in_range { thread < THREADS }
        requires sizes { length used.now ≡ length
            (outs_of (innermost self.now.held thread) self.now.held.regions) }
        ensures released { IsOk result ↔ (HasKey self.now.held.regions commit ×
            AllReturned self.now.bytes self.now.held.regions (innermost self.now.held thread) used.now
            commit) }
        ensures refused { (r : Refusal) → (result ≡ Err r) ↔ IsReleaseRefused self.now.bytes
            self.now.held.regions (innermost self.now.held thread) used.now commit r }
    {
        let call = self.held.innermost(thread);
        check_release(&self.bytes, &self.held, call, used, commit)
    }

    /// Whether the thread's innermost call holds a region to be written at the place, 0 for the first, and that region is
    /// filled up to the used size: it has room for as much, and the bytes past it are as they were when it was held.
    pub fn is_filled(&self, thread: u8, place: usize, used: u64) -> bool
        requires { thread < THREADS }
        ensures { IsTrue result ↔ IsSomeAnd (slice_get
            (outs_of (innermost self.now.held thread) self.now.held.regions) place)
            (IsFilled self.now.bytes used) }
    {
        let call = self.held.innermost(thread);
        match out_at(self.held.as_slice(), call, place) {
            Some(region) => is_filled(&self.bytes, region, used),
            None => false,
        }
    }

    /// Whether the key is in use, and the region under it is filled up to the used size.
    pub fn is_committed_filled(&self, key: u64, used: u64) -> bool
        ensures { IsTrue result ↔ IsSomeAnd (prepared_region self.now.held.regions key)
            (IsFilled self.now.bytes used) }
    {
        match self.held.prepared(key) {
            Some(region) => is_filled(&self.bytes, region, used),
            None => false,
        }
    }

    // The byte at the address.
    fn cell(&self, addr: u64) -> Cell
        requires { addr < 2 ^ 64 }
        ensures { result ≡ cell_at self.now addr }
    {
        let pending = self.held.first_pending(Range { addr, len: 1 }).is_some();
        match self.bytes.get(addr) {
            None => Cell::Dead,
            Some(_) if pending => Cell::Pending,
            Some(byte) => Cell::Byte(byte),
        }
    }
}

// The two memories of a run.
ghost use Rattle.std.specs.Prelude.{◌≡◌, ◌⊎◌, ℕ, ◌+◌, ◌-◌, ◌^◌, ◌<◌, ◌≤◌, ◌↔◌, true, false, [], ◌∷◌, ◌++◌, All, IsTrue, length, replicate, slice_index, slice_set, Some, None, Ok, Err, IsOk, IsSomeAnd, IfOk, IfSome, IfNone, OnOk, OnErr};
ghost use Rattle.marks.specs.declared.side.Side.TheVariants.{Replay};
ghost use Rattle.memory_map.specs.declared.areas.TheConstants.{THREADS, REPLAY_STACKS, REPLAY_POOL, SYSTEM_STACKS, SYSTEM_POOL};
ghost use Rattle.marks.specs.Ranges.{IsFirstIn};
ghost use Rattle.space_memory_bytes.specs.Areas.{byte_at, extents, LiesIn};
ghost use Rattle.space_memory_bytes.specs.Numbers.{FillsWith};
ghost use Rattle.space_memory.specs.StackFrames.{stack_of, end_of};
ghost use Rattle.pool_list.specs.Blocks.{length_at, with_block, without_block};
ghost use Rattle.pool_list.specs.Places.{IsPlace, IsLeastPlace};
ghost use Rattle.space_memory_access.specs.declared.holder.Holder.TheVariants.{Key};
ghost use Rattle.space_memory_access.specs.Held.{innermost, without_call, without_closed};
ghost use Rattle.space_memory_access.specs.declared.refusal.Refusal.{Refusal};
ghost use Rattle.space_memory_access.specs.Accesses.{IsAllowed, IsRefused, IsPendingTo};
ghost use Rattle.space_memory.specs.declared.error.HoldError.TheVariants.{Refused};
ghost use Rattle.space_memory.specs.Sides.{frames_of, top_of, with_thread, with_blocks, fresh_side, pool_range, IsWithin};
ghost use Rattle.space_memory.specs.Spaces.{side_of, with_side};
ghost use Rattle.space_memory.specs.Objects.{IsInArea, byte_of};
ghost use Rattle.space_memory.specs.Frames.{IsEnterRefused, IsLeaveRefused, with_args};
ghost use Rattle.space_memory.specs.Held.{region_range, region_access, holder_of, AddsRegion, IsPrepareRefused};
ghost use Rattle.space_memory.specs.Releases.{outs_of, committed_key, AllReturned, HasKey, IsReleaseRefused};
ghost use Rattle.space_memory.specs.Blocks.{IsFreeRefused};

use crate::frames::write_args;
use crate::objects::{areas, end_of_constants, put_objects};
use crate::regions::{first_pending, holder_of, region_of, region_range};
use crate::release::{check_release, committed_key};
use crate::{HoldError, Sides};
use marks::Side;
use memory_map::{Placed, REPLAY_MEMORY, Range, SYSTEM_MEMORY};
use space_memory_access::{Holder, Refusal, Regions};
use space_memory_bytes::LiveBytes;
use std::alloc::{AllocError, Global};
use std::marker::Model;

/// The memory above the cut and below it: which bytes live and with which value, the frames and blocks of each side, and
/// the regions that open calls hold or that are prepared under a key.
#[derive(Drop)]
pub struct Spaces {
    pub(crate) bytes: LiveBytes,
    pub(crate) held: Regions,
    pub(crate) sides: Sides,
}

impl Model for Spaces {
    ghost use Rattle.space_memory_bytes.specs.Areas.{extents};
    ghost use Rattle.space_memory.specs.Spaces.{SpaceState, IsKept};

    ghost Value = { SpaceState };

    ghost view = { λ s. record { bytes = s.bytes; held = s.held; sides = s.sides } };

    ghost invariant = { λ s. IsKept (extents s.bytes) s.held.regions s.sides };
}

impl Spaces {
    /// The memory before a run: the bytes of the globals and strings, no frames, no blocks, no open calls. Each object lies
    /// whole among the constants, which end before the replay globals, or in an area of globals.
    pub fn new(alloc: Global, placed: &Placed) -> Result<Spaces, AllocError>
        requires globals { All IsInArea placed.now.globals }
        requires strings { All IsInArea placed.now.strings }
        ensures bytes { IfOk result (λ spaces. (x : ℕ) →
            byte_at spaces.bytes x ≡ byte_of placed.now.strings x (byte_of placed.now.globals x None)) }
        ensures held { IfOk result (λ spaces. spaces.held ≡
            record { regions = []; depths = replicate THREADS 0 }) }
        ensures sides { IfOk result (λ spaces. spaces.sides ≡
            record {
              replay = fresh_side REPLAY_STACKS REPLAY_POOL;
              system =
                  fresh_side SYSTEM_STACKS SYSTEM_POOL;
            }) }
    {
        let globals = placed.globals.as_slice();
        let strings = placed.strings.as_slice();
        let end = end_of_constants(globals).max(end_of_constants(strings));
        let mut bytes = LiveBytes::new(alloc, &areas(end))?;
        put_objects(&mut bytes, globals);
        put_objects(&mut bytes, strings);
        let held = Regions::new(alloc)?;
        let sides = Sides::new(alloc)?;
        Ok(Spaces { bytes, held, sides })
    }

    /// A new frame of the thread on the side, of `size` zero bytes: the address of its first byte. `StackFull` where it would
    /// pass the end of the stack, or where 256 frames are in use, with the address at which it would lie.
    pub fn enter(&mut self, side: Side, thread: u8, size: u64) -> Result<u64, Refusal>
        requires { thread < THREADS }
        ensures entered { IfOk result (λ addr. self.new.sides ≡
            with_side self.old.sides side (with_thread (side_of self.old.sides side) thread
            (frames_of (side_of self.old.sides side) thread ++ record { addr = addr; len = size } ∷ []))) }
        ensures place { IfOk result (λ addr. addr ≡
            end_of (stack_of (side_of self.old.sides side).stacks thread).base
            (frames_of (side_of self.old.sides side) thread)) }
        ensures zero { IfOk result (λ addr. FillsWith (record { addr = addr; len = size }) (Some 0)
            self.old.bytes self.new.bytes) }
        ensures held { self.new.held ≡ self.old.held }
        ensures refused { (r : Refusal) → (result ≡ Err r) ↔ IsEnterRefused
            (stack_of (side_of self.old.sides side).stacks thread) size r }
        ensures unchanged { OnErr result (self.new ≡ self.old) }
    {
        match self.sides.enter(side, thread, size) {
            Some(frame) => {
                self.bytes.fill(frame, Some(0));
                Ok(frame.addr)
            }
            None => {
                let addr = self.sides.of(side).end(thread);
                Err(Refusal::StackFull { addr })
            }
        }
    }

    /// Sets the arguments of the thread's innermost frame on the side, each at its offset in the frame and in its width.
    pub fn set_args(&mut self, side: Side, thread: u8, offsets: &[u64], widths: &[u8], args: &[u64])
        requires in_range { thread < THREADS }
        requires widths { length widths.now ≡ length offsets.now }
        requires args { length args.now ≡ length offsets.now }
        requires in_frame { IsSomeAnd (top_of (side_of self.old.sides side) thread) (λ frame. (i : ℕ) →
            i < length offsets.now → slice_index offsets.now i + slice_index widths.now i ≤ frame.len) }
        ensures areas { extents self.new.bytes ≡ extents self.old.bytes }
        ensures set { IfSome (top_of (side_of self.old.sides side) thread) (λ frame. (x : ℕ) →
            byte_at self.new.bytes x ≡ with_args frame.addr offsets.now widths.now args.now x
            (byte_at self.old.bytes x)) }
        ensures rest { self.new ≡ record self.old { bytes = self.new.bytes } }
    {
        if let Some(frame) = self.top(side, thread) {
            write_args(&mut self.bytes, frame, offsets, widths, args);
        }
    }

    /// Takes the thread's innermost frame on the side away, whose bytes are dead from then on. `Pending` where replay code
    /// leaves a frame that has a pending byte, with the least one.
    pub fn leave(&mut self, side: Side, thread: u8) -> Result<Range, Refusal>
        requires in_range { thread < THREADS }
        requires frame { 0 < length (frames_of (side_of self.old.sides side) thread) }
        ensures left { IfOk result (λ frame. frames_of (side_of self.old.sides side) thread ≡
            frames_of (side_of self.new.sides side) thread ++ frame ∷ []) }
        ensures others { OnOk result (self.new.sides ≡
            with_side self.old.sides side (with_thread (side_of self.old.sides side) thread
            (frames_of (side_of self.new.sides side) thread))) }
        ensures dead { IfOk result (λ frame. FillsWith frame None self.old.bytes self.new.bytes) }
        ensures held { self.new.held ≡ self.old.held }
        ensures refused { (r : Refusal) → (result ≡ Err r) ↔ IsLeaveRefused side self.old.held.regions
            (top_of (side_of self.old.sides side) thread) r }
        ensures unchanged { OnErr result (self.new ≡ self.old) }
    {
        if let Some(addr) = self.first_pending_in_frame(side, thread) {
            return Err(Refusal::Pending { addr });
        }
        let frame = self.sides.leave(side, thread);
        self.bytes.fill(frame, None);
        Ok(frame)
    }

    /// The thread's innermost frame on the side.
    pub fn top(&self, side: Side, thread: u8) -> Option<Range>
        requires { thread < THREADS }
        ensures top { result ≡ top_of (side_of self.now.sides side) thread }
        ensures in_area { IfSome result (λ frame. LiesIn frame (extents self.now.bytes)) }
        ensures ends { IfSome result (λ frame. frame.addr + frame.len < 2 ^ 64) }
    {
        self.sides.of(side).top(thread)
    }

    /// Opens a call of the thread, which has no regions yet.
    pub fn open(&mut self, thread: u8) -> Result<(), AllocError>
        requires { thread < THREADS }
        ensures opened { OnOk result (self.new.held ≡
            record self.old.held {
              depths = slice_set self.old.held.depths thread
                  (slice_index self.old.held.depths thread + 1);
            }) }
        ensures rest { self.new ≡ record self.old { held = self.new.held } }
        ensures unchanged { OnErr result (self.new ≡ self.old) }
    {
        self.held.open(thread)
    }

    /// Adds the region of the range to the thread's innermost call, which reads it, or holds it to be written below the cut.
    /// The region of a NULL pointer is empty. `Refused` as a load of replay code is or, where it is to be written, a store.
    pub fn hold(
        &mut self,
        alloc: Global,
        thread: u8,
        range: Range,
        write: bool,
    ) -> Result<(), HoldError>
        requires in_range { thread < THREADS }
        requires open { 1 ≤ slice_index self.old.held.depths thread }
        ensures held { OnOk result (AddsRegion self.old.bytes (region_range range)
            (holder_of write (innermost self.old.held thread)) self.old.held self.new.held) }
        ensures calls { self.new.held.depths ≡ self.old.held.depths }
        ensures rest { self.new ≡ record self.old { held = self.new.held } }
        ensures allowed { OnOk result (IsAllowed self.old.bytes self.old.held.regions
            (region_access thread range write)) }
        ensures refused { (r : Refusal) → (result ≡ Err (Refused r)) ↔ IsRefused self.old.bytes
            self.old.held.regions (region_access thread range write) r }
        ensures unchanged { OnErr result (self.new ≡ self.old) }
    {
        let range = region_range(range);
        self.check(Side::Replay, thread, range, write)?;
        let call = self.held.innermost(thread);
        let region = region_of(alloc, &self.bytes, range, holder_of(write, call))?;
        self.held.add(region)?;
        Ok(())
    }

    /// Adds the region of the range to the thread's innermost call, which prepares it under the key: it is to be written
    /// below the cut until the key is committed. `Refused` as a store of replay code is, and last of all with `KeyInUse`.
    pub fn prepare(
        &mut self,
        alloc: Global,
        thread: u8,
        key: u64,
        range: Range,
    ) -> Result<(), HoldError>
        requires in_range { thread < THREADS }
        requires open { 1 ≤ slice_index self.old.held.depths thread }
        ensures prepared { OnOk result (AddsRegion self.old.bytes (region_range range)
            (Key key (Some (innermost self.old.held thread))) self.old.held self.new.held) }
        ensures calls { self.new.held.depths ≡ self.old.held.depths }
        ensures rest { self.new ≡ record self.old { held = self.new.held } }
        ensures allowed { OnOk result (IsAllowed self.old.bytes self.old.held.regions
            (region_access thread range true)) }
        ensures refused { (r : Refusal) → (result ≡ Err (Refused r)) ↔ IsPrepareRefused self.old.bytes
            self.old.held.regions (region_access thread range true) key r }
        ensures unchanged { OnErr result (self.new ≡ self.old) }
    {
        let range = region_range(range);
        self.check(Side::Replay, thread, range, true)?;
        if self.held.prepared(key).is_some() {
            return Err(HoldError::Refused(Refusal::KeyInUse { addr: key }));
        }
        let by = Some(self.held.innermost(thread));
        let region = region_of(alloc, &self.bytes, range, Holder::Key { key, by })?;
        self.held.add(region)?;
        Ok(())
    }

    /// Drops the thread's innermost call with all that it holds and has prepared.
    pub fn undo(&mut self, thread: u8)
        requires in_range { thread < THREADS }
        requires open { 1 ≤ slice_index self.old.held.depths thread }
        ensures regions { self.new.held.regions ≡
            without_call (innermost self.old.held thread) self.old.held.regions }
        ensures depths { self.new.held.depths ≡
            slice_set self.old.held.depths thread (slice_index self.old.held.depths thread - 1) }
        ensures rest { self.new ≡ record self.old { held = self.new.held } }
    {
        self.held.undo(thread);
    }

    /// Closes the thread's innermost call: gives back what it holds, each region to be written with its used size, and the
    /// region under the committed key with its own. What else the call has prepared stays in use. `NoKey` where the key isn't
    /// in use; else `Size`, with the region's first byte, at the first region of which more is used than it has, or of which
    /// a byte past the used size was changed since it was held. Then the call stays open.
    pub fn release(
        &mut self,
        thread: u8,
        used: &[u64],
        commit: Option<(u64, u64)>,
    ) -> Result<(), Refusal>
        requires in_range { thread < THREADS }
        requires open { 1 ≤ slice_index self.old.held.depths thread }
        requires sizes { length used.now ≡ length
            (outs_of (innermost self.old.held thread) self.old.held.regions) }
        ensures regions { OnOk result (self.new.held.regions ≡
            without_closed (innermost self.old.held thread) (committed_key commit) self.old.held.regions) }
        ensures depths { OnOk result (self.new.held.depths ≡
            slice_set self.old.held.depths thread (slice_index self.old.held.depths thread - 1)) }
        ensures rest { self.new ≡ record self.old { held = self.new.held } }
        ensures released { IsOk result ↔ (HasKey self.old.held.regions commit ×
            AllReturned self.old.bytes self.old.held.regions (innermost self.old.held thread) used.now
            commit) }
        ensures refused { (r : Refusal) → (result ≡ Err r) ↔ IsReleaseRefused self.old.bytes
            self.old.held.regions (innermost self.old.held thread) used.now commit r }
        ensures unchanged { OnErr result (self.new ≡ self.old) }
    {
        let call = self.held.innermost(thread);
        check_release(&self.bytes, &self.held, call, used, commit)?;
        self.held.close(thread, committed_key(commit));
        Ok(())
    }

    /// Makes `n` bytes of the side's pool live and zero, at the least place where they fit, and answers their address; `None`
    /// where they fit nowhere or `n` is 0.
    pub fn alloc_in(&mut self, side: Side, n: u64) -> Option<u64>
        ensures place { IfSome result (IsLeastPlace (side_of self.old.sides side).pool n) }
        ensures taken { IfSome result (λ addr. self.new.sides ≡
            with_side self.old.sides side (with_blocks (side_of self.old.sides side)
            (with_block (side_of self.old.sides side).pool.blocks (record { addr = addr; len = n })))) }
        ensures zero { IfSome result (λ addr.
            FillsWith (record { addr = addr; len = n }) (Some 0) self.old.bytes self.new.bytes) }
        ensures none { IfNone result ((n ≡ 0) ⊎
            ((addr : ℕ) → ¬ IsPlace (side_of self.old.sides side).pool n addr)) }
        ensures some { IfSome result (λ _. 1 ≤ n) }
        ensures held { self.new.held ≡ self.old.held }
        ensures unchanged { IfNone result (self.new ≡ self.old) }
    {
        if n == 0 {
            return None;
        }
        let addr = self.sides.take(side, n)?;
        self.bytes.fill(Range { addr, len: n }, Some(0));
        Some(addr)
    }

    /// Frees the side's block that begins at the address, and answers its length: its bytes are dead from then on. At
    /// address 0 nothing is freed. `OtherSpace` for an address in the memory of the other side; else `NotLive` where no block
    /// of the side begins there; else `Pending` for the least byte of the block that replay code may not touch.
    pub fn free_in(&mut self, side: Side, addr: u64) -> Result<u64, Refusal>
        ensures null { addr ≡ 0 → (result ≡ Ok 0) × (self.new ≡ self.old) }
        ensures length { IfOk result (λ len. 0 < addr →
            length_at (side_of self.old.sides side).pool.blocks addr ≡ Some len) }
        ensures freed { OnOk result (0 < addr →
            self.new.sides ≡ with_side self.old.sides side
            (with_blocks (side_of self.old.sides side)
            (without_block (side_of self.old.sides side).pool.blocks addr))) }
        ensures dead { IfOk result (λ len. FillsWith (record { addr = addr; len = len }) None
            self.old.bytes self.new.bytes) }
        ensures held { self.new.held ≡ self.old.held }
        ensures refused { (r : Refusal) → (result ≡ Err r) ↔ ((0 < addr) ×
            IsFreeRefused side (side_of self.old.sides side).pool.blocks self.old.held.regions addr r) }
        ensures unchanged { OnErr result (self.new ≡ self.old) }
    {
        if addr == 0 {
            return Ok(0);
        }
        let len = self.check_free(side, addr)?;
        self.sides.give(side, addr);
        self.bytes.fill(Range { addr, len }, None);
        Ok(len)
    }

    // The least byte of the thread's innermost frame on the side that its code may not touch.
    fn first_pending_in_frame(&self, side: Side, thread: u8) -> Option<u64>
        requires in_range { thread < THREADS }
        requires frame { 0 < length (frames_of (side_of self.now.sides side) thread) }
        ensures { IsSomeAnd (top_of (side_of self.now.sides side) thread) (λ frame.
            IsFirstIn frame (IsPendingTo side self.now.held.regions) result) }
    {
        match self.top(side, thread) {
            Some(frame) => first_pending(&self.held, side, frame),
            None => unreachable!("a frame is there"),
        }
    }

    // The length of the side's block that begins at the address, unless its free is refused.
    fn check_free(&self, side: Side, addr: u64) -> Result<u64, Refusal>
        requires { 0 < addr }
        ensures length { IfOk result (λ len. length_at (side_of self.now.sides side).pool.blocks addr ≡
            Some len) }
        ensures in_pool { IfOk result (λ len.
            IsWithin (pool_range (side_of self.now.sides side).pool) (record { addr = addr; len = len })) }
        ensures refused { (r : Refusal) → (result ≡ Err r) ↔ IsFreeRefused side
            (side_of self.now.sides side).pool.blocks self.now.held.regions addr r }
    {
        let other = match side {
            Side::Replay => SYSTEM_MEMORY,
            Side::System => REPLAY_MEMORY,
        };
        if other.has(addr) {
            return Err(Refusal::OtherSpace { addr });
        }
        let Some(len) = self.sides.of(side).block(addr) else {
            return Err(Refusal::NotLive { addr });
        };
        match first_pending(&self.held, side, Range { addr, len }) {
            Some(addr) => Err(Refusal::Pending { addr }),
            None => Ok(len),
        }
    }
}

// The two sides of memory.
ghost use Rattle.std.specs.Prelude.{◌≡◌, ◌<◌, ◌≤◌, ℕ, ◌↔◌, ◌∷◌, ◌++◌, [], length, IsNone, IsSome, IfSome, IfNone, IfOk};
ghost use Rattle.memory_map.specs.declared.areas.TheConstants.{THREADS, REPLAY_STACKS, REPLAY_POOL, SYSTEM_STACKS, SYSTEM_POOL};
ghost use Rattle.space_memory.specs.StackFrames.{stack_of, next_frame, IsFullFor};
ghost use Rattle.pool_list.specs.Blocks.{length_at, with_block, without_block};
ghost use Rattle.pool_list.specs.Places.{IsPlace, IsLeastPlace};
ghost use Rattle.space_memory.specs.Sides.{frames_of, with_thread, with_blocks, fresh_side, stack_range, IsWithin};
ghost use Rattle.space_memory.specs.Spaces.{side_of, with_side};

use crate::side_space::SideSpace;
use marks::Side;
use memory_map::{REPLAY_POOL, REPLAY_STACKS, Range, SYSTEM_POOL, SYSTEM_STACKS};
use std::alloc::{AllocError, Global};

/// Memory above the cut and below it. Contracts see each side as its stacks by thread and its pool.
#[derive(Drop)]
pub struct Sides {
    pub replay: SideSpace,
    pub system: SideSpace,
}

impl Sides {
    /// Two sides with no frames and no blocks.
    pub fn new(alloc: Global) -> Result<Sides, AllocError>
        ensures replay { IfOk result (λ sides. sides.replay ≡ fresh_side REPLAY_STACKS REPLAY_POOL) }
        ensures system { IfOk result (λ sides. sides.system ≡ fresh_side SYSTEM_STACKS SYSTEM_POOL) }
    {
        Ok(Sides {
            replay: SideSpace::new(alloc, REPLAY_STACKS, REPLAY_POOL)?,
            system: SideSpace::new(alloc, SYSTEM_STACKS, SYSTEM_POOL)?,
        })
    }

    /// One of the two.
    pub fn of(&self, side: Side) -> &SideSpace
        ensures { result.now ≡ side_of self.now side }
    {
        match side {
            Side::Replay => &self.replay,
            Side::System => &self.system,
        }
    }

    /// A new frame of the thread on the side; `None` where it doesn't fit.
    pub fn enter(&mut self, side: Side, thread: u8, size: u64) -> Option<Range>
        requires { thread < THREADS }
        ensures full { IsNone result ↔ IsFullFor (stack_of (side_of self.old side).stacks thread) size }
        ensures frame { IfSome result (λ frame. frame ≡
            next_frame (stack_of (side_of self.old side).stacks thread) size) }
        ensures entered { IfSome result (λ frame. self.new ≡
            with_side self.old side (with_thread (side_of self.old side) thread
            (frames_of (side_of self.old side) thread ++ frame ∷ []))) }
        ensures in_stack { IfSome result (IsWithin
            (stack_range (stack_of (side_of self.old side).stacks thread))) }
        ensures unchanged { IfNone result (self.new ≡ self.old) }
    {
        match side {
            Side::Replay => self.replay.enter(thread, size),
            Side::System => self.system.enter(thread, size),
        }
    }

    /// Takes the thread's innermost frame on the side away.
    pub fn leave(&mut self, side: Side, thread: u8) -> Range
        requires in_range { thread < THREADS }
        requires frame { 0 < length (frames_of (side_of self.old side) thread) }
        ensures left { frames_of (side_of self.old side) thread ≡
            frames_of (side_of self.new side) thread ++ result ∷ [] }
        ensures others { self.new ≡ with_side self.old side
            (with_thread (side_of self.old side) thread (frames_of (side_of self.new side) thread)) }
        ensures in_stack { IsWithin (stack_range (stack_of (side_of self.old side).stacks thread)) result }
    {
        match side {
            Side::Replay => self.replay.leave(thread),
            Side::System => self.system.leave(thread),
        }
    }

    /// Makes `n` bytes, at least 1, a live block of the side at the least place where they fit.
    pub fn take(&mut self, side: Side, n: u64) -> Option<u64>
        requires { 1 ≤ n }
        ensures place { IfSome result (IsLeastPlace (side_of self.old side).pool n) }
        ensures taken { IfSome result (λ addr. self.new ≡
            with_side self.old side (with_blocks (side_of self.old side)
            (with_block (side_of self.old side).pool.blocks (record { addr = addr; len = n })))) }
        ensures no_place { IfNone result ((addr : ℕ) → ¬ IsPlace (side_of self.old side).pool n addr) }
        ensures unchanged { IfNone result (self.new ≡ self.old) }
    {
        match side {
            Side::Replay => self.replay.take(n),
            Side::System => self.system.take(n),
        }
    }

    /// Makes the block of the side that begins at the address free.
    pub fn give(&mut self, side: Side, addr: u64)
        requires { IsSome (length_at (side_of self.old side).pool.blocks addr) }
        ensures { self.new ≡ with_side self.old side
            (with_blocks (side_of self.old side) (without_block (side_of self.old side).pool.blocks addr)) }
    {
        match side {
            Side::Replay => self.replay.give(addr),
            Side::System => self.system.give(addr),
        }
    }
}

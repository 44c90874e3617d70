// One side of memory: the stacks of its threads, and its pool.
ghost use Rattle.std.specs.Prelude.{◌≡◌, ◌+◌, ◌*◌, ◌%◌, ◌^◌, ◌<◌, ◌≤◌, ◌↔◌, ℕ, [], ◌∷◌, ◌++◌, length, IsTrue, IsNone, IsSome, IfSome, IfNone, IfOk};
ghost use Rattle.memory_map.specs.declared.areas.TheConstants.{THREADS, STACK_SIZE, POOL_SIZE};
ghost use Rattle.space_memory.specs.StackFrames.{stack_of, next_frame, end_of, IsFullFor};
ghost use Rattle.pool_list.specs.Blocks.{length_at, with_block, without_block};
ghost use Rattle.pool_list.specs.Places.{IsPlace, IsLeastPlace};
ghost use Rattle.space_memory.specs.Sides.{SideState, frames_of, top_of, with_thread, with_blocks, fresh_side, stack_range, pool_range, IsWithin};

use crate::stack::Stack;
use memory_map::{POOL_SIZE, Range, STACK_SIZE, THREADS};
use pool_list::Pool;
use std::alloc::{AllocError, Global};
use std::marker::Model;

/// The stacks of all threads on one side, and its pool.
#[derive(Drop)]
pub struct SideSpace {
    stacks: Vec<Stack>,
    pool: Pool,
}

impl Model for SideSpace {
    ghost use Rattle.std.specs.Prelude.{◌≡◌, length};
    ghost use Rattle.memory_map.specs.declared.areas.TheConstants.{THREADS};
    ghost use Rattle.space_memory.specs.Sides.{SideState};

    ghost Value = { SideState };

    ghost view = { λ s. record { stacks = s.stacks.items; pool = s.pool } };

    ghost invariant = { λ s. length s.stacks.items ≡ THREADS };
}

impl SideSpace {
    /// A side with no frames and no blocks: its stacks from one address on, its pool from another.
    pub fn new(alloc: Global, stacks_from: u64, pool_from: u64) -> Result<SideSpace, AllocError>
        requires stacks_end { stacks_from + THREADS * STACK_SIZE < 2 ^ 64 }
        requires pool_aligned { pool_from % 16 ≡ 0 }
        requires pool_ends { pool_from + POOL_SIZE < 2 ^ 64 }
        ensures { IfOk result (λ side. side ≡ fresh_side stacks_from pool_from) }
    {
        let mut stacks = Vec::new(alloc);
        for thread in 0..THREADS {
            let from = stacks_from + thread as u64 * STACK_SIZE;
            stacks.push(Stack::new(alloc, from)?)?;
        }
        let pool = Pool::new(alloc, pool_from, POOL_SIZE)?;
        Ok(SideSpace { stacks, pool })
    }

    /// Whether a frame of the size doesn't fit on the thread's stack.
    pub fn is_full(&self, thread: u8, size: u64) -> bool
        requires { thread < THREADS }
        ensures { IsTrue result ↔ IsFullFor (stack_of self.now.stacks thread) size }
    {
        let stack = &self.stacks[thread as usize];
        stack.is_full(size)
    }

    /// A new frame of the thread; `None` where it doesn't fit.
    pub fn enter(&mut self, thread: u8, size: u64) -> Option<Range>
        requires { thread < THREADS }
        ensures full { IsNone result ↔ IsFullFor (stack_of self.old.stacks thread) size }
        ensures frame { IfSome result (λ frame. frame ≡ next_frame (stack_of self.old.stacks thread) size) }
        ensures entered { IfSome result (λ frame. self.new ≡
            with_thread self.old thread (frames_of self.old thread ++ frame ∷ [])) }
        ensures in_stack { IfSome result (IsWithin (stack_range (stack_of self.old.stacks thread))) }
        ensures unchanged { IfNone result (self.new ≡ self.old) }
    {
        let stack = &mut self.stacks[thread as usize];
        stack.enter(size)
    }

    /// Takes the thread's innermost frame away.
    pub fn leave(&mut self, thread: u8) -> Range
        requires in_range { thread < THREADS }
        requires frame { 0 < length (frames_of self.old thread) }
        ensures left { frames_of self.old thread ≡ frames_of self.new thread ++ result ∷ [] }
        ensures others { self.new ≡ with_thread self.old thread (frames_of self.new thread) }
        ensures in_stack { IsWithin (stack_range (stack_of self.old.stacks thread)) result }
    {
        let stack = &mut self.stacks[thread as usize];
        stack.leave()
    }

    /// The thread's innermost frame.
    pub fn top(&self, thread: u8) -> Option<Range>
        requires { thread < THREADS }
        ensures top { result ≡ top_of self.now thread }
        ensures in_stack { IfSome result (IsWithin (stack_range (stack_of self.now.stacks thread))) }
    {
        let stack = &self.stacks[thread as usize];
        stack.top()
    }

    /// The address at which the thread's next frame would lie.
    pub fn end(&self, thread: u8) -> u64
        requires { thread < THREADS }
        ensures { result ≡ end_of (stack_of self.now.stacks thread).base (frames_of self.now thread) }
    {
        let stack = &self.stacks[thread as usize];
        stack.end()
    }

    /// Makes `n` bytes, at least 1, a live block at the least place where they fit; `None` where they fit nowhere.
    pub fn take(&mut self, n: u64) -> Option<u64>
        requires { 1 ≤ n }
        ensures place { IfSome result (IsLeastPlace self.old.pool n) }
        ensures taken { IfSome result (λ addr. self.new ≡
            with_blocks self.old (with_block self.old.pool.blocks (record { addr = addr; len = n }))) }
        ensures no_place { IfNone result ((addr : ℕ) → ¬ IsPlace self.old.pool n addr) }
        ensures unchanged { IfNone result (self.new ≡ self.old) }
    {
        self.pool.take(n)
    }

    /// Makes the block that begins at the address free.
    pub fn give(&mut self, addr: u64)
        requires { IsSome (length_at self.old.pool.blocks addr) }
        ensures { self.new ≡ with_blocks self.old (without_block self.old.pool.blocks addr) }
    {
        match self.pool.give(addr) {
            Ok(_) => {}
            Err(_) => unreachable!("a block begins there"),
        }
    }

    /// The length of the live block that begins at the address.
    pub fn block(&self, addr: u64) -> Option<u64>
        ensures length { result ≡ length_at self.now.pool.blocks addr }
        ensures in_pool { IfSome result (λ len.
            IsWithin (pool_range self.now.pool) (record { addr = addr; len = len })) }
    {
        self.pool.length(addr)
    }
}

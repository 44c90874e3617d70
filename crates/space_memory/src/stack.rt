// One thread's stack.
ghost use Rattle.std.specs.Prelude.{◌≡◌, ℕ, ◌+◌, ◌-◌, ◌^◌, ◌<◌, ◌≤◌, ◌↔◌, [], ◌∷◌, ◌++◌, length, slice_get, IsTrue, IsNone, IfSome, IfNone, IfOk, option_map};
ghost use Rattle.space_memory.specs.StackFrames.{end_of, next_frame, IsFullFor, LieInStack};

use memory_map::{FRAMES, Range, STACK_SIZE};
use std::alloc::{AllocError, Global};
use std::marker::Model;

/// The frames of one thread on one side, in memory from `base` on.
#[derive(Drop)]
pub struct Stack {
    base: u64,
    frames: Vec<Range>,
}

impl Model for Stack {
    ghost use Rattle.std.specs.Prelude.{◌+◌, ◌^◌, ◌<◌, ◌≤◌, length};
    ghost use Rattle.memory_map.specs.declared.areas.TheConstants.{STACK_SIZE, FRAMES};
    ghost use Rattle.std.specs.Vec.{vec_capacity};
    ghost use Rattle.space_memory.specs.StackFrames.{StackState, LieInStack};

    ghost Value = { StackState };

    ghost view = { λ s. record { base = s.base; frames = s.frames.items } };

    ghost invariant = { λ s. (s.base + STACK_SIZE < 2 ^ 64) × (FRAMES ≤ vec_capacity s.frames) ×
        (length s.frames.items ≤ FRAMES) × LieInStack (record { base = s.base; frames = s.frames.items }) };
}

impl Stack {
    /// A stack with no frames. It takes the memory for all that it may ever have.
    pub fn new(alloc: Global, base: u64) -> Result<Stack, AllocError>
        requires { base + STACK_SIZE < 2 ^ 64 }
        ensures { IfOk result (λ stack. stack ≡ record { base = base; frames = [] }) }
    {
        let frames = Vec::with_capacity(alloc, FRAMES)?;
        Ok(Stack { base, frames })
    }

    /// Whether a frame of the size doesn't fit.
    pub fn is_full(&self, size: u64) -> bool
        ensures { IsTrue result ↔ IsFullFor self.now size }
    {
        self.frames.len() == FRAMES || self.base + STACK_SIZE - self.end() < size
    }

    /// A new frame; `None` where it doesn't fit.
    pub fn enter(&mut self, size: u64) -> Option<Range>
        ensures full { IsNone result ↔ IsFullFor self.old size }
        ensures frame { IfSome result (λ frame. frame ≡ next_frame self.old size) }
        ensures entered { IfSome result (λ frame. self.new ≡
            record { base = self.old.base; frames = self.old.frames ++ frame ∷ [] }) }
        ensures in_stack { LieInStack self.new }
        ensures unchanged { IfNone result (self.new ≡ self.old) }
    {
        if self.is_full(size) {
            return None;
        }
        let addr = self.end();
        let frame = Range { addr, len: size };
        match self.frames.push(frame) {
            Ok(()) => Some(frame),
            Err(_) => unreachable!("the stack has room for as many frames as may be in use"),
        }
    }

    /// Takes the innermost frame away.
    pub fn leave(&mut self) -> Range
        requires { 0 < length self.old.frames }
        ensures left { self.old ≡ record { base = self.new.base; frames = self.new.frames ++ result ∷ [] } }
        ensures in_stack { LieInStack self.old }
    {
        match self.frames.pop() {
            Some(frame) => frame,
            None => unreachable!("there is a frame"),
        }
    }

    /// The innermost frame.
    pub fn top(&self) -> Option<Range>
        ensures top { result ≡ slice_get self.now.frames (length self.now.frames - 1) }
        ensures in_stack { LieInStack self.now }
    {
        self.frames.last().copied()
    }

    /// The address after the innermost frame, where the next one would lie.
    pub fn end(&self) -> u64
        ensures end { result ≡ end_of self.now.base self.now.frames }
        ensures in_stack { (self.now.base ≤ result) × (result ≤ self.now.base + STACK_SIZE) }
        ensures few { length self.now.frames ≤ FRAMES }
    {
        match self.frames.last() {
            Some(frame) => frame.addr + frame.len,
            None => self.base,
        }
    }
}

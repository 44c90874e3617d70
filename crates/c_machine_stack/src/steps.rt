// What a stack does. Contracts see what it holds as a list with the topmost value first.

ghost use Rattle.std.specs.Prelude.{◌≡◌, ◌==◌, ◌+◌, ◌<◌, ◌≤◌, List, [], ◌∷◌, ◌++◌, length, take, drop, reverse, IfOk, IfSome, IfNone};
ghost use Rattle.c_machine_stack.specs.Stacks.{held, room_of};

use crate::Stack;
use std::alloc::{AllocError, Global};

impl<T: Copy + Drop> Stack<T> {
    /// An empty stack with room for so many values. It takes all the memory that it ever needs.
    pub fn new(alloc: Global, room: usize) -> Result<Stack<T>, AllocError>
        ensures empty { IfOk result (λ stack. held stack ≡ []) }
        ensures room { IfOk result (λ stack. room_of stack ≡ room) }
    {
        let items = Vec::with_capacity(alloc, room)?;
        Ok(Stack { items, room })
    }

    /// How many values it holds.
    #[inline(always)]
    pub fn len(&self) -> usize
        ensures len { result ≡ length (held self.now) }
        ensures few { result ≤ room_of self.now }
    {
        self.items.len()
    }

    /// Whether it holds none.
    #[inline(always)]
    pub fn is_empty(&self) -> bool
        ensures { result ≡ (length (held self.now) == 0) }
    {
        self.items.is_empty()
    }

    /// Puts a value on top.
    #[inline(always)]
    pub fn push(&mut self, value: T)
        requires { length (held self.old) < room_of self.old }
        ensures pushed { held self.new ≡ value ∷ held self.old }
        ensures room { room_of self.new ≡ room_of self.old }
    {
        self.items.push_reserved(value);
    }

    /// Takes the topmost value; `None` where there is none.
    #[inline(always)]
    pub fn pop(&mut self) -> Option<T>
        ensures some { IfSome result (λ value. held self.old ≡ value ∷ held self.new) }
        ensures none { IfNone result ((held self.old ≡ []) × (held self.new ≡ [])) }
        ensures room { room_of self.new ≡ room_of self.old }
    {
        self.items.pop()
    }

    /// Puts a value in the place of the topmost one.
    #[inline(always)]
    pub fn replace_top(&mut self, value: T)
        requires some { 0 < length (held self.old) }
        ensures replaced { held self.new ≡ value ∷ drop 1 (held self.old) }
        ensures room { room_of self.new ≡ room_of self.old }
    {
        let top = self.items.len() - 1;
        self.items[top] = value;
    }

    /// Puts a value in the place of the two topmost ones.
    #[inline(always)]
    pub fn replace_two(&mut self, value: T)
        requires two { 1 < length (held self.old) }
        ensures replaced { held self.new ≡ value ∷ drop 2 (held self.old) }
        ensures room { room_of self.new ≡ room_of self.old }
    {
        let _gone = self.items.take_last();
        self.replace_top(value);
    }

    /// The topmost value.
    #[inline(always)]
    pub fn peek(&self) -> T
        requires some { 0 < length (held self.now) }
        ensures { (below : List T) × (held self.now ≡ result ∷ below) }
    {
        let top = self.items.len() - 1;
        self.items[top]
    }

    /// The topmost value and the one below it.
    #[inline(always)]
    pub fn peek_two(&self) -> (T, T)
        requires two { 1 < length (held self.now) }
        ensures { (below : List T) × (held self.now ≡ result.0 ∷ (result.1 ∷ below)) }
    {
        let top = self.items.len() - 1;
        (self.items[top], self.items[top - 1])
    }

    /// The topmost `count` values, the lowest of them first; all where there are fewer.
    #[inline(always)]
    pub fn top_slice(&self, count: usize) -> &[T]
        ensures { result.now ≡ reverse (take count (held self.now)) }
    {
        &self.items[self.items.len().saturating_sub(count)..]
    }

    /// Takes the topmost value away, where there is one.
    #[inline(always)]
    pub fn drop_one(&mut self)
        ensures dropped { held self.new ≡ drop 1 (held self.old) }
        ensures room { room_of self.new ≡ room_of self.old }
    {
        let _gone = self.items.pop();
    }

    /// Takes the topmost `count` values away; all where there are fewer.
    pub fn drop_top(&mut self, count: usize)
        ensures dropped { held self.new ≡ drop count (held self.old) }
        ensures room { room_of self.new ≡ room_of self.old }
    {
        self.items.truncate(self.items.len().saturating_sub(count));
    }

    /// Puts the topmost `count` values on top again, in their order; all where there are fewer.
    pub fn repeat_top(&mut self, count: usize)
        requires { length (held self.old) + count ≤ room_of self.old }
        ensures repeated { held self.new ≡ take count (held self.old) ++ held self.old }
        ensures room { room_of self.new ≡ room_of self.old }
    {
        let from = self.items.len().saturating_sub(count);
        match self.items.extend_from_within(from..) {
            Ok(()) => {}
            Err(_) => unreachable!("the stack has room for the values"),
        }
    }

    /// Takes away the value below the topmost `count`, where there is one.
    pub fn drop_below(&mut self, count: usize)
        ensures dropped { held self.new ≡ take count (held self.old) ++ drop (count + 1) (held self.old) }
        ensures room { room_of self.new ≡ room_of self.old }
    {
        let len = self.items.len();
        if count < len {
            let _gone = self.items.remove(len - count - 1);
        }
    }

    /// Takes all values away.
    pub fn clear(&mut self)
        ensures cleared { held self.new ≡ [] }
        ensures room { room_of self.new ≡ room_of self.old }
    {
        self.items.clear();
    }
}

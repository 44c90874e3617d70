//! The answers of a system file that were not given yet, by function.

ghost use Rattle.std.specs.Prelude.{◌≡◌, ℕ, ◌+◌, ◌<◌, ◌++◌, [], ◌∷◌, length, take, drop, map, slice_set, if◌then◌else◌, ◌==◌, IfOk, OnOk, OnErr};
ghost use Rattle.std.specs.List.{slice_get};
ghost use Rattle.system_side.specs.Answers.{left_of, places_of};

use crate::answer_list::Answers;
use std::alloc::{AllocError, Global};
use std::collections::VecDeque;
use std::marker::Model;

/// Places in a list of answers, the next one first.
#[derive(Drop)]
pub struct Queue {
    places: VecDeque<usize>,
}

impl Model for Queue {
    ghost use Rattle.std.specs.Prelude.{ℕ, List};

    ghost Value = { List ℕ };

    ghost view = { λ q. q.places.items };
}

impl Queue {
    fn new(alloc: Global) -> Queue
        ensures { result ≡ [] }
    {
        Queue {
            places: VecDeque::new(alloc),
        }
    }

    fn put(&mut self, place: usize) -> Result<(), AllocError>
        ensures { OnOk result (self.new ≡ self.old ++ place ∷ []) }
    {
        self.places.push_back(place)?;
        Ok(())
    }

    fn first(&self) -> Option<usize>
        ensures { result ≡ slice_get self.now 0 }
    {
        self.places.front().copied()
    }

    fn take(&mut self) -> Option<usize>
        ensures next { result ≡ slice_get self.old 0 }
        ensures rest { self.new ≡ drop 1 self.old }
    {
        self.places.pop_front()
    }
}

/// For each function the places of its answers that were not given yet.
#[derive(Drop)]
pub struct Left {
    queues: Vec<Queue>,
}

impl Model for Left {
    ghost use Rattle.std.specs.Prelude.{ℕ, List};

    ghost Value = { List (List ℕ) };

    ghost view = { λ l. l.queues.items };
}

impl Left {
    /// The places of all answers.
    pub fn new(alloc: Global, answers: &Answers) -> Result<Left, AllocError>
        ensures { IfOk result (λ left. (f : ℕ) → left_of left f ≡ places_of f 0 answers.now) }
    {
        let mut left = Left {
            queues: Vec::new(alloc),
        };
        for place in 0..answers.len() {
            left.add(alloc, answers.get(place).func, place)?;
        }
        Ok(left)
    }

    /// The place of the function's next answer.
    pub fn first(&self, func: u16) -> Option<usize>
        ensures { result ≡ slice_get (left_of self.now func) 0 }
    {
        let at = usize::from(func);
        if at >= self.queues.len() {
            return None;
        }
        self.queues[at].first()
    }

    /// Takes the place of the function's next answer.
    pub fn take(&mut self, func: u16) -> Option<usize>
        ensures next { result ≡ slice_get (left_of self.old func) 0 }
        ensures rest { self.new ≡ slice_set self.old func (drop 1 (left_of self.old func)) }
    {
        let at = usize::from(func);
        if at >= self.queues.len() {
            return None;
        }
        self.queues[at].take()
    }

    // Puts a place at the end of those of the function.
    fn add(&mut self, alloc: Global, func: u16, place: usize) -> Result<(), AllocError>
        ensures { OnOk result ((f : ℕ) → left_of self.new f ≡ (if func == f then left_of self.old f ++
            place ∷ [] else left_of self.old f)) }
    {
        let at = usize::from(func);
        make_room(&mut self.queues, alloc, at)?;
        self.queues[at].put(place)
    }
}

// Gives the functions up to this one a queue.
fn make_room(queues: &mut Vec<Queue>, alloc: Global, at: usize) -> Result<(), AllocError>
    requires { at < 65536 }
    ensures room { OnOk result (at < length queues.new.items) }
    ensures same { OnOk result ((f : ℕ) → left_of queues.new.items f ≡ left_of queues.old.items f) }
{
    for _ in queues.len()..at + 1 {
        queues.push(Queue::new(alloc))?;
    }
    Ok(())
}

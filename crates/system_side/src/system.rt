//! The system side of a run.

ghost use Rattle.std.specs.Prelude.{◌≡◌, ◌↔◌, ℕ, ◌+◌, ◌<◌, ◌≤◌, ◌++◌, [], ◌∷◌, true, false, not, length, map, drop, pos, negsuc, Ok, Some, None, IfOk, IsNone, OnErr, IfNone, IsSome, slice_set, if◌then◌else◌, is_some};
ghost use Rattle.std.specs.List.{find, slice_get, All};
ghost use Rattle.std.specs.Ordering.{int_cmp};
ghost use Rattle.std.specs.BTreeMap.{is_at, insert_entry};
ghost use Rattle.std.specs.Map.{remove_entry};
ghost use Rattle.system_side.specs.Schedule.{wish_at};
ghost use Rattle.system_side.specs.Threads.{woken, is_ready, order_of, has_not_ended, joined};
ghost use Rattle.system_side.specs.Answers.{left_of, places_of};
ghost use Rattle.system_side.specs.System.{holder, holds};

use crate::answers::Left;
use crate::file::SysFile;
use crate::threads::{Standing, THREADS, Threads, Wait};
use crate::turns::Turns;
use std::alloc::{AllocError, Global};
use std::collections::BTreeMap;
use std::marker::Model;

/// What lies below the cut: the schedule, the threads, the mutexes that are held, and the answers that are left.
/// A thread is named by its number, a mutex by any number.
#[derive(Drop)]
pub struct System {
    turns: Turns,
    threads: Threads,
    held: BTreeMap<i32, u8>,
    left: Left,
}

impl Model for System {
    ghost use Rattle.system_side.specs.System.{SystemState};

    ghost Value = { SystemState };

    ghost view = { λ s. record {
      schedule = s.turns;
      threads = s.threads;
      held = s.held.entries;
      left =
          s.left;
    } };
}

impl System {
    /// The system of a file, in which thread 0 alone was started.
    pub fn new(alloc: Global, file: &SysFile) -> Result<System, AllocError>
        requires some { 0 < length file.now.schedule }
        requires counts { All (λ item. 0 < item.1) file.now.schedule }
        ensures schedule { IfOk result (λ system. system.schedule ≡ file.now.schedule) }
        ensures threads { IfOk result (λ system. system.threads ≡ Standing.Ready ∷ []) }
        ensures mutexes { IfOk result (λ system. system.held ≡ []) }
        ensures answers { IfOk result (λ system. (f : ℕ) →
            left_of system.left f ≡ places_of f 0 file.now.answers) }
    {
        let turns = Turns::new(alloc, &file.schedule)?;
        let threads = Threads::new(alloc)?;
        let left = Left::new(alloc, &file.answers)?;
        Ok(System {
            turns,
            threads,
            held: BTreeMap::new(alloc),
            left,
        })
    }

    /// The thread that a step, counted from 0, wishes for.
    pub fn wish(&self, step: u64) -> u8
        ensures { result ≡ wish_at self.now.schedule step }
    {
        self.turns.wish(step)
    }

    /// The thread that steps where `wish` is wished for: the first that was started, hasn't ended and isn't blocked
    /// among `wish` to 31 and then 0 to `wish` - 1.
    pub fn pick(&self, wish: u8) -> Option<u8>
        ensures first { result ≡ find (is_ready self.now.threads) (order_of wish) }
        ensures none { IsNone result ↔ ((t : ℕ) → is_ready self.now.threads t ≡ false) }
    {
        self.threads.pick(wish)
    }

    /// Takes a mutex that is free. Where it is held, also by this thread, the thread is blocked until it is free.
    pub fn lock(&mut self, thread: u8, m: i32) -> Result<bool, AllocError>
        requires { has_not_ended self.old.threads thread ≡ true }
        ensures answer { IfOk result (λ taken. taken ≡ not (is_some (holder self.old.held m))) }
        ensures taken { result ≡ Ok true → self.new ≡
            record self.old { held = insert_entry int_cmp self.old.held m thread } }
        ensures blocked { result ≡ Ok false
            → self.new ≡ record self.old {
              threads =
                  slice_set self.old.threads thread (Standing.Waits (Wait.Mutex m));
            } }
        ensures unchanged { OnErr result (self.new ≡ self.old) }
    {
        if self.held.contains_key(&m) {
            self.threads.stop(thread, Standing::Waits(Wait::Mutex(m)));
            return Ok(false);
        }
        self.held.insert(m, thread)?;
        Ok(true)
    }

    /// Frees a mutex that the thread holds, and with it the threads that wait for it, and answers 0; else -1.
    pub fn unlock(&mut self, thread: u8, m: i32) -> i32
        requires { has_not_ended self.old.threads thread ≡ true }
        ensures answer { result ≡ (if holds self.old.held thread m then pos 0 else negsuc 0) }
        ensures freed { holds self.old.held thread m ≡ true
            → self.new ≡ record self.old {
              held = remove_entry (is_at (int_cmp m)) self.old.held;
              threads =
                  map (woken (Wait.Mutex m)) self.old.threads;
            } }
        ensures free { holds self.old.held thread m ≡ true → holder self.new.held m ≡ None }
        ensures unchanged { holds self.old.held thread m ≡ false → self.new ≡ self.old }
    {
        if self.holds(thread, m) {
            self.held.remove(&m);
            self.threads.wake(Wait::Mutex(m));
            0
        } else {
            -1
        }
    }

    /// Whether a thread holds the mutex.
    pub fn is_held(&self, m: i32) -> bool
        ensures { result ≡ is_some (holder self.now.held m) }
    {
        self.held.contains_key(&m)
    }

    /// Whether the thread holds the mutex.
    pub fn holds(&self, thread: u8, m: i32) -> bool
        ensures { result ≡ holds self.now.held thread m }
    {
        match self.held.get(&m) {
            Some(holder) => *holder == thread,
            None => false,
        }
    }

    /// How many threads were started.
    pub fn started(&self) -> usize
        ensures count { result ≡ length self.now.threads }
        ensures few { result ≤ 32 }
    {
        self.threads.len()
    }

    /// Starts a thread and answers its number, the count of those before; -1 where 32 were started.
    pub fn spawn(&mut self) -> i32
        ensures started { length self.old.threads < 32
            → (result ≡ pos (length self.old.threads)) ×
            (self.new ≡ record self.old { threads = self.old.threads ++ Standing.Ready ∷ [] }) }
        ensures full { 32 ≤ length self.old.threads → (result ≡ negsuc 0) × (self.new ≡ self.old) }
        ensures few { length self.new.threads ≤ 32 }
    {
        let count = self.threads.len();
        if count == THREADS {
            return -1;
        }
        self.threads.start();
        count as i32
    }

    /// Ends a thread with the result of its first function, and frees the threads that wait for its end.
    pub fn end(&mut self, thread: u8, value: i32)
        requires { has_not_ended self.old.threads thread ≡ true }
        ensures { self.new ≡ record self.old {
          threads =
              map (woken (Wait.Thread (pos thread)))
              (slice_set self.old.threads thread (Standing.Ended value));
        } }
    {
        self.threads.stop(thread, Standing::Ended(value));
        self.threads.wake(Wait::Thread(i32::from(thread)));
    }

    /// Blocks a thread until what it waits for has come.
    pub fn block(&mut self, thread: u8, wait: Wait)
        requires { has_not_ended self.old.threads thread ≡ true }
        ensures { self.new ≡ record self.old {
          threads =
              slice_set self.old.threads thread (Standing.Waits wait);
        } }
    {
        self.threads.stop(thread, Standing::Waits(wait));
    }

    /// What `join` would answer; no thread is blocked.
    pub fn joined(&self, thread: u8, t: i32) -> Option<i32>
        ensures { result ≡ joined self.now.threads thread t }
    {
        if t == i32::from(thread) {
            return Some(-1);
        }
        match self.threads.standing(t) {
            None => Some(-1),
            Some(Standing::Ended(value)) => Some(value),
            Some(_) => None,
        }
    }

    /// The result of another thread that has ended; -1 where `t` isn't another thread that was started. Where it hasn't
    /// ended, `None`, and the thread is blocked until it has.
    pub fn join(&mut self, thread: u8, t: i32) -> Option<i32>
        requires { has_not_ended self.old.threads thread ≡ true }
        ensures answer { result ≡ joined self.old.threads thread t }
        ensures blocked { IfNone result
            (self.new ≡ record self.old {
              threads =
                  slice_set self.old.threads thread (Standing.Waits (Wait.Thread t));
            }) }
        ensures unchanged { IsSome result → self.new ≡ self.old }
    {
        let joined = self.joined(thread, t);
        if joined.is_none() {
            self.block(thread, Wait::Thread(t));
        }
        joined
    }

    /// The place, in the answers of the file, of the function's next answer, which is left; `None` where there is none.
    pub fn next_answer(&self, func: u16) -> Option<usize>
        ensures { result ≡ slice_get (left_of self.now.left func) 0 }
    {
        self.left.first(func)
    }

    /// Takes the function's next answer, and gives its place in the answers of the file; `None` where there is none.
    pub fn answer(&mut self, func: u16) -> Option<usize>
        ensures next { result ≡ slice_get (left_of self.old.left func) 0 }
        ensures rest { self.new ≡ record self.old {
          left =
              slice_set self.old.left func (drop 1 (left_of self.old.left func));
        } }
    {
        self.left.take(func)
    }
}

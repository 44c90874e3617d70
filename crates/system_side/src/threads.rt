//! The threads that were started, and which of them may step.

ghost use Rattle.std.specs.Prelude.{◌≡◌, ◌↔◌, ℕ, ◌<◌, ◌≤◌, ◌++◌, [], ◌∷◌, true, false, length, map, IfOk, IsNone, slice_set, slice_index_or};
ghost use Rattle.std.specs.List.{find};
ghost use Rattle.system_side.specs.Threads.{same_wait, waits_for, woken, standing_of, may_step, is_ready, order_of, HasBits};

use crate::mask::{bits_from, lowest, with_bit, without_bit};
use std::alloc::{AllocError, Global};
use std::marker::Model;

/// How many threads can be started.
pub const THREADS: usize = 32;

/// What a thread waits for.
#[derive(Clone, Copy)]
pub enum Wait {
    /// The mutex with this number.
    Mutex(i32),
    /// The end of the thread with this number.
    Thread(i32),
}

impl Wait {
    /// Whether both are the same.
    pub fn is(self, other: Wait) -> bool
        ensures { result ≡ same_wait self other }
    {
        match (self, other) {
            (Wait::Mutex(m), Wait::Mutex(n)) => m == n,
            (Wait::Thread(t), Wait::Thread(u)) => t == u,
            _ => false,
        }
    }
}

/// Where a started thread stands.
#[derive(Clone, Copy)]
pub enum Standing {
    /// It may step.
    Ready,
    /// It is blocked.
    Waits(Wait),
    /// Its first function returned this result.
    Ended(i32),
}

impl Standing {
    fn waits_for(self, wait: Wait) -> bool
        ensures { result ≡ waits_for wait self }
    {
        match self {
            Standing::Waits(other) => other.is(wait),
            _ => false,
        }
    }
}

/// The started threads, by number. The bit of a thread that may step is set in `ready`.
#[derive(Drop)]
pub struct Threads {
    standings: Vec<Standing>,
    ready: u32,
}

impl Model for Threads {
    ghost use Rattle.std.specs.Prelude.{List};
    ghost use Rattle.std.specs.Vec.{vec_capacity};
    ghost use Rattle.system_side.specs.declared.threads.Standing.{Standing};
    ghost use Rattle.system_side.specs.Threads.{IsKept};

    ghost Value = { List Standing };

    ghost view = { λ t. t.standings.items };

    ghost invariant = { λ t. IsKept (vec_capacity t.standings) t.ready t.standings.items };
}

impl Threads {
    /// One thread that may step. It takes the memory for all threads that can be started.
    pub fn new(alloc: Global) -> Result<Threads, AllocError>
        ensures { IfOk result (λ threads. threads ≡ Standing.Ready ∷ []) }
    {
        let mut standings = Vec::with_capacity(alloc, THREADS)?;
        standings.push_reserved(Standing::Ready);
        Ok(Threads {
            standings,
            ready: 1,
        })
    }

    /// How many threads were started.
    pub fn len(&self) -> usize
        ensures count { result ≡ length self.now }
        ensures few { result ≤ 32 }
    {
        self.standings.len()
    }

    /// Where the thread stands, if it was started.
    pub fn standing(&self, thread: i32) -> Option<Standing>
        ensures { result ≡ standing_of self.now thread }
    {
        let at = usize::try_from(thread).ok()?;
        self.standings.get(at).copied()
    }

    /// Starts one more thread.
    pub fn start(&mut self)
        requires { length self.old < 32 }
        ensures { self.new ≡ self.old ++ Standing.Ready ∷ [] }
    {
        self.ready = with_bit(self.ready, self.standings.len() as u32);
        self.standings.push_reserved(Standing::Ready);
    }

    /// Puts a thread where it doesn't step.
    pub fn stop(&mut self, thread: u8, standing: Standing)
        requires started { thread < length self.old }
        requires stops { may_step standing ≡ false }
        ensures { self.new ≡ slice_set self.old thread standing }
    {
        self.ready = without_bit(self.ready, u32::from(thread));
        self.standings[usize::from(thread)] = standing;
    }

    /// Makes the threads ready that wait for what has come.
    pub fn wake(&mut self, wait: Wait)
        ensures { self.new ≡ map (woken wait) self.old }
    {
        self.ready = wake_all(&mut self.standings, self.ready, wait);
    }

    /// The first thread from `wish` on that may step, or else the first one.
    pub fn pick(&self, wish: u8) -> Option<u8>
        ensures first { result ≡ find (is_ready self.now) (order_of wish) }
        ensures none { IsNone result ↔ ((t : ℕ) → is_ready self.now t ≡ false) }
    {
        match lowest(bits_from(self.ready, u32::from(wish))) {
            Some(thread) => Some(thread),
            None => lowest(self.ready),
        }
    }
}

// Makes the threads ready that wait for what has come, and gives their mask.
fn wake_all(standings: &mut [Standing], ready: u32, wait: Wait) -> u32
    requires few { length standings.old ≤ 32 }
    requires bits { HasBits ready standings.old }
    ensures woken { standings.new ≡ map (woken wait) standings.old }
    ensures bits { HasBits result standings.new }
{
    let mut ready = ready;
    for at in 0..standings.len() {
        ready = wake_one(standings, ready, at, wait);
    }
    ready
}

// The same for one thread.
fn wake_one(standings: &mut [Standing], ready: u32, at: usize, wait: Wait) -> u32
    requires inside { at < length standings.old }
    requires few { length standings.old ≤ 32 }
    requires bits { HasBits ready standings.old }
    ensures woken { standings.new ≡ slice_set standings.old at
        (woken wait (slice_index_or standings.old at Standing.Ready)) }
    ensures bits { HasBits result standings.new }
{
    if standings[at].waits_for(wait) {
        standings[at] = Standing::Ready;
        with_bit(ready, at as u32)
    } else {
        ready
    }
}

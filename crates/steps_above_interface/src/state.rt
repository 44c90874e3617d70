//! What is kept of a run.

ghost use Rattle.std.specs.Prelude.{◌≡◌, ◌<◌, ◌||◌, ℕ, Bool, false, List, get_or, length, IfOk};
ghost use Rattle.run_events.specs.declared.key.Class.TheVariants.{Callback};
ghost use Rattle.marks.specs.Places.{thread_count};
ghost use Rattle.logical_clock.specs.Events.{is_among};
ghost use Rattle.replay_runs.specs.Keys.{key};
ghost use Rattle.replay_runs.specs.Runs.{same_key};
ghost use Rattle.steps_above_interface.specs.State.{AreBlank, AreRegistered};
ghost use Rattle.steps_above_interface.specs.Stands.{AnswersLast, AnswersRegistered, AnswersRepeats, Begins, CountsCall, CountsReturn};

use crate::pieces::is_return;
use run_events::{Bytes, Class, Key, Record};
use std::alloc::{AllocError, Global};
use std::marker::Model;

/// By thread, the index of its last return of a function among its events.
type Indices = [Option<u32>; 32];

/// Functions of which no thread has returned.
fn no_returns(alloc: Global, functions: u32) -> Result<Vec<Indices>, AllocError>
    ensures { IfOk result (λ rows. AreBlank functions rows.items) }
{
    let mut rows = Vec::with_capacity(alloc, functions as usize)?;
    for _function in 0..functions {
        rows.push([None; 32])?;
    }
    Ok(rows)
}

/// Registers the function of the key, where it has one.
fn register_one(registered: &mut [bool], key: Key)
    ensures { AreRegistered (same_key key) registered.old registered.new }
{
    let Key {
        class: Class::Callback,
        value: func,
    } = key
    else {
        return;
    };
    if func < registered.len() as u64 {
        registered[func as usize] = true;
    }
}

/// Registers the function of each key that has one.
fn register_all(registered: &mut [bool], keys: &[Key])
    ensures { AreRegistered (is_among keys.now) registered.old registered.new }
{
    for key in keys {
        register_one(registered, *key);
    }
}

/// Which functions are registered, and where among a thread's records that of its last return of a function stands. What the
/// return gave isn't copied: the record has it.
#[derive(Drop)]
pub struct InterfaceState {
    registered: Vec<bool>,
    returned: Vec<Indices>,
}

impl Model for InterfaceState {
    ghost use Rattle.steps_above_interface.specs.State.{KeptState, IsSound};

    ghost Value = { KeptState };

    ghost view = { λ s. record { registered = s.registered.items; returned = s.returned.items } };

    ghost invariant = { λ s. IsSound (record {
      registered = s.registered.items;
      returned = s.returned.items;
    }) };
}

impl InterfaceState {
    /// Before any mark of a run whose functions have numbers below `functions`.
    pub fn new(alloc: Global, functions: u32) -> Result<InterfaceState, AllocError>
        ensures functions { IfOk result (λ state. length state.registered ≡ functions) }
        ensures begins { IfOk result Begins }
    {
        let registered = vec![in alloc; false; functions as usize]?;
        let returned = no_returns(alloc, functions)?;
        Ok(InterfaceState {
            registered,
            returned,
        })
    }

    /// Whether a Call handed the function down to be called back.
    pub fn is_registered(&self, func: u16) -> bool
        requires { func < length self.now.registered }
        ensures { AnswersRegistered self.now func result }
    {
        self.registered[func as usize]
    }

    /// Counts a Call that has these keys: it registers each function whose callback key is one of them.
    pub fn register(&mut self, keys: &[Key])
        ensures counts { CountsCall keys.now self.old self.new }
        ensures functions { length self.new.registered ≡ length self.old.registered }
    {
        register_all(&mut self.registered, keys);
    }

    /// The index of the thread's last return of the function, which has `cache`, among its events.
    pub fn last_return(&self, thread: u8, func: u16) -> Option<u32>
        requires thread { thread < thread_count }
        requires func { func < length self.now.registered }
        ensures { AnswersLast self.now thread func result }
    {
        self.returned[func as usize][thread as usize]
    }

    /// Whether the thread's last return of the function, which has `cache`, gave this value and these pieces. `records` are
    /// those of the thread's events, in which each return has what it gave.
    pub fn repeats(
        &self,
        records: &[Record],
        thread: u8,
        func: u16,
        value: u64,
        pieces: &[Bytes],
    ) -> bool
        requires thread { thread < thread_count }
        requires func { func < length self.now.registered }
        ensures { AnswersRepeats self.now records.now thread func value pieces.now result }
    {
        let Some(index) = self.last_return(thread, func) else {
            return false;
        };
        match records.get(index as usize) {
            Some(record) => is_return(&record.event, value, pieces),
            None => false,
        }
    }

    /// Counts a Ret of the function, which is the thread's event with this index.
    pub fn remember(&mut self, thread: u8, func: u16, index: u32)
        requires thread { thread < thread_count }
        requires func { func < length self.old.registered }
        ensures counts { CountsReturn thread func index self.old self.new }
        ensures registered { self.new.registered ≡ self.old.registered }
    {
        self.returned[func as usize][thread as usize] = Some(index);
    }
}

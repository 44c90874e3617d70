//! Events.

ghost use Rattle.std.specs.Prelude.{◌≡◌, ◌<◌, [], ◌∷◌, true, length, IfOk, IfErr, OnOk};
ghost use Rattle.run_events.specs.declared.key.Class.TheVariants.{Pool};
ghost use Rattle.marks.specs.Marks.{EventKind, Alloc, Free};
ghost use Rattle.marks.specs.Wants.{Frees};
ghost use Rattle.memory_map.specs.declared.areas.TheConstants.{THREADS};
ghost use Rattle.replay_runs.specs.Keys.{key};
ghost use Rattle.race_watch.specs.Told.{Accessed};
ghost use Rattle.race_watch.specs.Stands.{WasTold};
ghost use Rattle.space_memory_laws.specs.Marks.{IsQuietEvent};
ghost use Rattle.steps_above_memory.specs.Events.{MakesEvent, HasPlace, WasToldFree};
ghost use Rattle.steps_above_memory.specs.Spaces.{IsFreed, IsGiven};
ghost use Rattle.steps_above_memory.specs.Steps.{HasCause, Refuses, Takes};

use crate::above::MemoryAbove;
use crate::refusal::StepRefusal;
use marks::Side;
use memory_map::{Range, SYSTEM_MEMORY};
use race_watch::Watch;
use run_events::{Class, Key};
use space_memory_access::Refusal;
use std::alloc::AllocError;

// The key that each event of the pool has.
const POOL_KEY: Key = Key {
    class: Class::Pool,
    value: 0,
};

/// Tells the watch of an access that races with nothing.
pub fn accessed(watch: &mut Watch, thread: u8, range: Range, write: bool) -> Result<(), AllocError>
    requires { thread < length watch.old.rows }
    ensures told { OnOk result (WasTold (Accessed thread range write) watch.old watch.new) }
    ensures threads { length watch.new.rows ≡ length watch.old.rows }
    ensures events { watch.new.events ≡ watch.old.events }
{
    match watch.access(thread, range, write) {
        Ok(()) => Ok(()),
        Err(_) => Err(AllocError),
    }
}

/// Tells the watch of a Free: of the write of its block, which races with nothing, and then of the event.
fn freed(watch: &mut Watch, thread: u8, range: Range) -> Result<(), StepRefusal>
    requires thread { thread < length watch.old.rows }
    requires few { watch.old.events < 4000000000 }
    ensures told { OnOk result (WasToldFree thread range watch.old watch.new) }
    ensures memory { IfErr result (λ refusal. refusal ≡ StepRefusal.Memory) }
    ensures threads { length watch.new.rows ≡ length watch.old.rows }
{
    if let Err(_) = accessed(watch, thread, range, true) {
        return Err(StepRefusal::Memory);
    }
    match watch.event(thread, &[POOL_KEY]) {
        Ok(()) => Ok(()),
        Err(_) => Err(StepRefusal::Memory),
    }
}

impl MemoryAbove {
    /// An event of the thread that reads and writes nothing: an Up, an UpRet or a Stop.
    pub fn event(&mut self, thread: u8, keys: &[Key]) -> Result<(), AllocError>
        requires in_range { thread < THREADS }
        requires few { self.old.watch.events < 4000000000 }
        ensures made { OnOk result ((kind : EventKind) → IsQuietEvent kind →
            MakesEvent self.old thread keys.now kind self.new) }
        ensures spaces { self.new.spaces ≡ self.old.spaces }
    {
        self.watch.event(thread, keys)?;
        Ok(())
    }

    /// A new block of so many zero bytes above the cut, which the thread has after its event: its address, or 0 where it is
    /// given none. After `AllocError` this memory is of no more use.
    pub fn alloc(&mut self, thread: u8, size: u64) -> Result<u64, AllocError>
        requires in_range { thread < THREADS }
        requires few { self.old.watch.events < 4000000000 }
        ensures place { IfOk result (HasPlace self.old size) }
        ensures made { IfOk result (λ addr.
            MakesEvent self.old thread (key Pool 0 ∷ []) (Alloc addr size) self.new) }
        ensures spaces { IfOk result (IsGiven self.old.spaces self.new.spaces size) }
    {
        self.watch.event(thread, &[POOL_KEY])?;
        match self.spaces.alloc_in(Side::Replay, size) {
            Some(addr) => {
                accessed(&mut self.watch, thread, Range { addr, len: size }, true)?;
                Ok(addr)
            }
            None => {
                accessed(&mut self.watch, thread, Range { addr: 0, len: 0 }, true)?;
                Ok(0)
            }
        }
    }

    /// Frees the block above the cut that begins at the address, before the thread's event: how many bytes it had. At
    /// address 0 nothing is freed.
    pub fn free(&mut self, thread: u8, addr: u64) -> Result<u64, StepRefusal>
        requires in_range { thread < THREADS }
        requires few { self.old.watch.events < 4000000000 }
        ensures passes { OnOk result (Takes self.old thread (Frees addr)) }
        ensures made { IfOk result (λ size.
            MakesEvent self.old thread (key Pool 0 ∷ []) (Free addr size) self.new) }
        ensures spaces { IfOk result (IsFreed self.old.spaces self.new.spaces addr) }
        ensures refused { IfErr result (Refuses self.old thread (Frees addr)) }
        ensures unchanged { IfErr result (λ refusal. HasCause refusal → self.new ≡ self.old) }
    {
        if addr == 0 {
            freed(&mut self.watch, thread, Range { addr: 0, len: 0 })?;
            return Ok(0);
        }
        if SYSTEM_MEMORY.has(addr) {
            return Err(StepRefusal::of(Refusal::OtherSpace { addr }));
        }
        let len = self.spaces.block(Side::Replay, addr).unwrap_or(1);
        let range = Range { addr, len };
        if let Err(error) = self.watch.test(thread, range, true) {
            return Err(StepRefusal::by(error));
        }
        match self.spaces.free_in(Side::Replay, addr) {
            Err(refusal) => Err(StepRefusal::of(refusal)),
            Ok(size) => {
                freed(&mut self.watch, thread, range)?;
                Ok(size)
            }
        }
    }
}

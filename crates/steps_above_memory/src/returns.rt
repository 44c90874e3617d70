//! Rets.

ghost use Rattle.std.specs.Prelude.{◌≡◌, ◌<◌, ◌≤◌, length, slice_index, IfErr, OnOk};
ghost use Rattle.memory_map.specs.declared.areas.TheConstants.{THREADS};
ghost use Rattle.space_memory_access.specs.Held.{innermost};
ghost use Rattle.space_memory.specs.Releases.{outs_of};
ghost use Rattle.space_memory_laws.specs.Changes.{IsReleased};
ghost use Rattle.steps_above_memory.specs.Steps.{HasCause};
ghost use Rattle.steps_above_memory.specs.Returns.{MakesReturn, RefusesReturn, TakesReturn, WasToldReturn, WasToldAccesses};

use crate::above::MemoryAbove;
use crate::events::accessed;
use crate::refusal::StepRefusal;
use memory_map::Range;
use race_watch::Watch;
use run_events::Key;
use std::alloc::AllocError;

/// Tells the watch of accesses that race with nothing, one after the other.
pub fn accessed_all(
    watch: &mut Watch,
    thread: u8,
    ranges: &[Range],
    write: bool,
) -> Result<(), AllocError>
    requires { thread < length watch.old.rows }
    ensures told { OnOk result (WasToldAccesses thread write ranges.now watch.old watch.new) }
    ensures threads { length watch.new.rows ≡ length watch.old.rows }
    ensures events { watch.new.events ≡ watch.old.events }
{
    for range in ranges {
        accessed(watch, thread, *range, write)?;
    }
    Ok(())
}

/// Tells the watch of a Ret: of the event, and then of the writes of all that it gives back.
fn returned(watch: &mut Watch, thread: u8, keys: &[Key], ranges: &[Range]) -> Result<(), AllocError>
    requires thread { thread < length watch.old.rows }
    requires few { watch.old.events < 4000000000 }
    ensures told { OnOk result (WasToldReturn thread keys.now ranges.now watch.old watch.new) }
    ensures threads { length watch.new.rows ≡ length watch.old.rows }
{
    watch.event(thread, keys)?;
    accessed_all(watch, thread, ranges, true)?;
    Ok(())
}

impl MemoryAbove {
    /// The Ret of the thread's innermost call: gives back the regions that the call holds to be written, each with its used
    /// size, and the region under the committed key with its own. `ranges` are these regions, in this order, and `keys` those
    /// of the event.
    pub fn release(
        &mut self,
        thread: u8,
        used: &[u64],
        commit: Option<(u64, u64)>,
        ranges: &[Range],
        keys: &[Key],
    ) -> Result<(), StepRefusal>
        requires in_range { thread < THREADS }
        requires open { 1 ≤ slice_index self.old.spaces.held.depths thread }
        requires sizes { length used.now ≡ length
            (outs_of (innermost self.old.spaces.held thread) self.old.spaces.held.regions) }
        requires few { self.old.watch.events < 4000000000 }
        ensures passes { OnOk result (TakesReturn self.old thread used.now commit) }
        ensures made { OnOk result (MakesReturn self.old thread used.now commit ranges.now keys.now
            self.new) }
        ensures spaces { OnOk result (IsReleased self.old.spaces self.new.spaces thread used.now commit) }
        ensures refused { IfErr result (RefusesReturn self.old thread used.now commit) }
        ensures unchanged { IfErr result (λ refusal. HasCause refusal → self.new ≡ self.old) }
    {
        if let Err(refusal) = self.spaces.release(thread, used, commit) {
            return Err(StepRefusal::of(refusal));
        }
        match returned(&mut self.watch, thread, keys, ranges) {
            Ok(()) => Ok(()),
            Err(_) => Err(StepRefusal::Memory),
        }
    }
}

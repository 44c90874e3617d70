//! Calls.

ghost use Rattle.std.specs.Prelude.{◌<◌, length, IfErr, OnOk};
ghost use Rattle.memory_map.specs.declared.areas.TheConstants.{THREADS};
ghost use Rattle.steps_above_memory.specs.Calls.{AreRegions};
ghost use Rattle.steps_above_memory.specs.Steps.{HasCause};
ghost use Rattle.recorder_memory.specs.Calls.{LeavesAll, MakesCall, RefusesCall, TakesCall};

use crate::memory::Memory;
use run_events::Key;
use std::alloc::Global;
use steps_above_memory::{CallRegions, StepRefusal};

impl Memory {
    /// A Call of the thread's code above the cut with these regions: it reads some first, then holds some, then prepares some.
    /// `keys` are those of the event.
    pub fn call_above(
        &mut self,
        alloc: Global,
        thread: u8,
        regions: &CallRegions,
        keys: &[Key],
    ) -> Result<(), StepRefusal>
        requires in_range { thread < THREADS }
        requires calls { thread < length self.old.above.spaces.held.depths }
        requires few { self.old.above.watch.events < 4000000000 }
        requires regions { AreRegions regions.now }
        ensures passes { OnOk result (TakesCall self.old thread regions.now) }
        ensures made { OnOk result (MakesCall self.old thread regions.now keys.now self.new) }
        ensures refused { IfErr result (RefusesCall self.old thread regions.now) }
        ensures unchanged { IfErr result (λ refusal. HasCause refusal → LeavesAll self.old self.new) }
    {
        self.above.call(alloc, thread, regions, keys)
    }
}

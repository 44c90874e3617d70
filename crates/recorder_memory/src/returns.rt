//! Rets.

ghost use Rattle.std.specs.Prelude.{◌≡◌, ◌<◌, ◌≤◌, length, slice_index, IfErr, OnOk};
ghost use Rattle.memory_map.specs.declared.areas.TheConstants.{THREADS};
ghost use Rattle.space_memory_access.specs.Held.{innermost};
ghost use Rattle.space_memory.specs.Releases.{outs_of};
ghost use Rattle.steps_above_memory.specs.Steps.{HasCause};
ghost use Rattle.recorder_memory.specs.Returns.{MakesReturn, PassesReturn, RefusesReturn};

use crate::memory::Memory;
use memory_map::Range;
use run_events::Key;
use steps_above_memory::StepRefusal;

impl Memory {
    /// Tests a Ret of the thread's innermost call after the pieces of its answer, with the used size of each region that the call
    /// holds to be written, and of the one under the committed key. Nothing is changed.
    pub fn test_return(
        &self,
        thread: u8,
        used: &[u64],
        commit: Option<(u64, u64)>,
    ) -> Result<(), StepRefusal>
        requires in_range { thread < THREADS }
        requires sizes { length used.now ≡ length
            (outs_of (innermost self.now.above.spaces.held thread) self.now.above.spaces.held.regions) }
        ensures passes { OnOk result (PassesReturn self.now thread used.now commit) }
        ensures refused { IfErr result (RefusesReturn self.now thread used.now commit) }
        ensures cause { IfErr result HasCause }
    {
        match self.above.spaces.may_release(thread, used, commit) {
            Ok(()) => Ok(()),
            Err(refusal) => Err(StepRefusal::of(refusal)),
        }
    }

    /// The Ret of the thread's innermost call, after the pieces of its answer: gives back the regions that the call holds to be
    /// written, each with its used size, and the region under the committed key with its own. `ranges` are these regions, in
    /// this order, and `keys` those of the event.
    pub fn return_above(
        &mut self,
        thread: u8,
        used: &[u64],
        commit: Option<(u64, u64)>,
        ranges: &[Range],
        keys: &[Key],
    ) -> Result<(), StepRefusal>
        requires in_range { thread < THREADS }
        requires open { 1 ≤ slice_index self.old.above.spaces.held.depths thread }
        requires sizes { length used.now ≡ length
            (outs_of (innermost self.old.above.spaces.held thread) self.old.above.spaces.held.regions) }
        requires few { self.old.above.watch.events < 4000000000 }
        ensures passes { OnOk result (PassesReturn self.old thread used.now commit) }
        ensures made { OnOk result (MakesReturn self.old thread used.now commit ranges.now keys.now
            self.new) }
        ensures refused { IfErr result (RefusesReturn self.old thread used.now commit) }
        ensures unchanged { IfErr result (λ refusal. HasCause refusal → self.new ≡ self.old) }
    {
        self.above.release(thread, used, commit, ranges, keys)
    }
}

//! Events that hold and give back nothing.

ghost use Rattle.std.specs.Prelude.{◌≡◌, ◌<◌, [], ◌∷◌, IfOk, IfErr, OnOk};
ghost use Rattle.run_events.specs.declared.key.Class.TheVariants.{Pool};
ghost use Rattle.marks.specs.declared.side.Side.TheVariants.{Replay};
ghost use Rattle.marks.specs.Marks.{EventKind, Alloc, Free};
ghost use Rattle.marks.specs.Wants.{Frees};
ghost use Rattle.memory_map.specs.declared.areas.TheConstants.{THREADS};
ghost use Rattle.replay_runs.specs.Keys.{key};
ghost use Rattle.space_memory_laws.specs.Marks.{IsQuietEvent};
ghost use Rattle.steps_above_memory.specs.Steps.{HasCause};
ghost use Rattle.recorder_memory.specs.Events.{HasBlock, HasPlace, Makes, Takes};
ghost use Rattle.recorder_memory.specs.Steps.{Refuses};

use crate::memory::Memory;
use run_events::Key;
use std::alloc::AllocError;
use steps_above_memory::StepRefusal;

impl Memory {
    /// An event of the thread that reads and writes nothing, with these keys: an Up or an UpRet.
    pub fn event_above(&mut self, thread: u8, keys: &[Key]) -> Result<(), AllocError>
        requires in_range { thread < THREADS }
        requires few { self.old.above.watch.events < 4000000000 }
        ensures { OnOk result ((kind : EventKind) → IsQuietEvent kind →
            Makes self.old thread keys.now kind self.new) }
    {
        self.above.event(thread, keys)
    }

    /// A new block of so many zero bytes above the cut, which the thread has after its event: its address, or 0 where it is
    /// given none. After `AllocError` this memory is of no more use.
    pub fn alloc_above(&mut self, thread: u8, size: u64) -> Result<u64, AllocError>
        requires in_range { thread < THREADS }
        requires few { self.old.above.watch.events < 4000000000 }
        ensures place { IfOk result (HasPlace self.old size) }
        ensures made { IfOk result (λ addr.
            Makes self.old thread (key Pool 0 ∷ []) (Alloc addr size) self.new) }
    {
        self.above.alloc(thread, size)
    }

    /// Frees the block above the cut that begins at the address, before the thread's event: how many bytes it had. At
    /// address 0 nothing is freed.
    pub fn free_above(&mut self, thread: u8, addr: u64) -> Result<u64, StepRefusal>
        requires in_range { thread < THREADS }
        requires few { self.old.above.watch.events < 4000000000 }
        ensures passes { OnOk result (Takes self.old thread Replay (Frees addr)) }
        ensures block { IfOk result (HasBlock self.old thread addr) }
        ensures made { IfOk result (λ size.
            Makes self.old thread (key Pool 0 ∷ []) (Free addr size) self.new) }
        ensures refused { IfErr result (Refuses self.old thread Replay (Frees addr)) }
        ensures unchanged { IfErr result (λ refusal. HasCause refusal → self.new ≡ self.old) }
    {
        self.above.free(thread, addr)
    }
}

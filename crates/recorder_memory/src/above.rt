//! Loads and stores of code above the cut.

ghost use Rattle.std.specs.Prelude.{◌≡◌, ◌^◌, ◌<◌, ◌≤◌, Option, ℕ, IfOk, IfErr, IfSome, OnOk, OnErr};
ghost use Rattle.marks.specs.declared.side.Side.TheVariants.{Replay};
ghost use Rattle.marks.specs.Ranges.{bytes_of_number};
ghost use Rattle.marks.specs.Marks.{Load, Store};
ghost use Rattle.marks.specs.Wants.{Loads, Stores};
ghost use Rattle.memory_map.specs.declared.areas.TheConstants.{THREADS};
ghost use Rattle.recorder_memory.specs.Steps.{Makes, Refuses};

use crate::memory::Memory;
use steps_above_memory::StepRefusal;

impl Memory {
    /// The number in `width` bytes, 1 to 8, from the address on, the lowest first, for the thread's code above the cut.
    #[inline(always)]
    pub fn load_above(&mut self, thread: u8, addr: u64, width: u8) -> Result<u64, StepRefusal>
        requires in_range { thread < THREADS }
        requires some { 1 ≤ width }
        requires at_most_8 { width ≤ 8 }
        ensures loaded { IfOk result (λ value. (origin : Option ℕ) → Makes self.old thread Replay
            (Loads origin addr width) (Load origin addr (bytes_of_number width value)) self.new) }
        ensures fits { IfOk result (λ value. value < 256 ^ width) }
        ensures refused { IfErr result (λ refusal. (origin : Option ℕ) → Refuses self.old thread Replay
            (Loads origin addr width) refusal) }
        ensures unchanged { OnErr result (self.new ≡ self.old) }
    {
        self.above.load(thread, addr, width)
    }

    /// The same where a glance shows it, and nothing changes: `None` wherever more is to be looked at.
    #[inline(always)]
    pub fn glance_above(&self, thread: u8, addr: u64, width: u8) -> Option<u64>
        requires in_range { thread < THREADS }
        requires at_most_8 { width ≤ 8 }
        ensures loaded { IfSome result (λ value. (origin : Option ℕ) → Makes self.now thread Replay
            (Loads origin addr width) (Load origin addr (bytes_of_number width value)) self.now) }
        ensures fits { IfSome result (λ value. value < 256 ^ width) }
    {
        self.above.glance(thread, addr, width)
    }

    /// Writes the low `width` bytes of the value, 1 to 8, from the address on, the lowest first, for the thread's code above
    /// the cut.
    #[inline(always)]
    pub fn store_above(
        &mut self,
        thread: u8,
        addr: u64,
        width: u8,
        value: u64,
    ) -> Result<(), StepRefusal>
        requires in_range { thread < THREADS }
        requires some { 1 ≤ width }
        requires at_most_8 { width ≤ 8 }
        ensures stored { OnOk result ((origin : Option ℕ) → Makes self.old thread Replay
            (Stores origin addr (bytes_of_number width value))
            (Store origin addr (bytes_of_number width value)) self.new) }
        ensures refused { IfErr result (λ refusal. (origin : Option ℕ) → Refuses self.old thread Replay
            (Stores origin addr (bytes_of_number width value)) refusal) }
        ensures unchanged { OnErr result (self.new ≡ self.old) }
    {
        self.above.store(thread, addr, width, value)
    }
}

//! Loads and stores of code below the cut. Nothing there races, and the watch is told nothing.

ghost use Rattle.std.specs.Prelude.{◌≡◌, ◌^◌, ◌<◌, ◌≤◌, Option, ℕ, IfOk, IfErr, IfSome, OnOk, OnErr};
ghost use Rattle.marks.specs.declared.side.Side.TheVariants.{System};
ghost use Rattle.marks.specs.Ranges.{bytes_of_number};
ghost use Rattle.marks.specs.Marks.{Load, Store};
ghost use Rattle.marks.specs.Wants.{Loads, Stores};
ghost use Rattle.memory_map.specs.declared.areas.TheConstants.{THREADS};
ghost use Rattle.steps_above_memory.specs.Steps.{HasCause};
ghost use Rattle.recorder_memory.specs.Steps.{Makes, Refuses};

use crate::memory::Memory;
use marks::Side;
use steps_above_memory::StepRefusal;

impl Memory {
    /// The number in `width` bytes, 1 to 8, from the address on, the lowest first, for the thread's code below the cut.
    #[inline(always)]
    pub fn load_below(&self, thread: u8, addr: u64, width: u8) -> Result<u64, StepRefusal>
        requires in_range { thread < THREADS }
        requires some { 1 ≤ width }
        requires at_most_8 { width ≤ 8 }
        ensures loaded { IfOk result (λ value. (origin : Option ℕ) → Makes self.now thread System
            (Loads origin addr width) (Load origin addr (bytes_of_number width value)) self.now) }
        ensures fits { IfOk result (λ value. value < 256 ^ width) }
        ensures refused { IfErr result (λ refusal. (origin : Option ℕ) → Refuses self.now thread System
            (Loads origin addr width) refusal) }
        ensures cause { IfErr result HasCause }
    {
        match self.above.spaces.load(Side::System, thread, addr, width) {
            Ok(value) => Ok(value),
            Err(refusal) => Err(StepRefusal::of(refusal)),
        }
    }

    /// The same where a glance shows it: `None` wherever more is to be looked at.
    #[inline(always)]
    pub fn glance_below(&self, thread: u8, addr: u64, width: u8) -> Option<u64>
        requires in_range { thread < THREADS }
        requires at_most_8 { width ≤ 8 }
        ensures loaded { IfSome result (λ value. (origin : Option ℕ) → Makes self.now thread System
            (Loads origin addr width) (Load origin addr (bytes_of_number width value)) self.now) }
        ensures fits { IfSome result (λ value. value < 256 ^ width) }
    {
        self.above.spaces.glance(Side::System, thread, addr, width)
    }

    /// Writes the low `width` bytes of the value, 1 to 8, from the address on, the lowest first, for the thread's code below
    /// the cut.
    #[inline(always)]
    pub fn store_below(
        &mut self,
        thread: u8,
        addr: u64,
        width: u8,
        value: u64,
    ) -> Result<(), StepRefusal>
        requires in_range { thread < THREADS }
        requires some { 1 ≤ width }
        requires at_most_8 { width ≤ 8 }
        ensures stored { OnOk result ((origin : Option ℕ) → Makes self.old thread System
            (Stores origin addr (bytes_of_number width value))
            (Store origin addr (bytes_of_number width value)) self.new) }
        ensures refused { IfErr result (λ refusal. (origin : Option ℕ) → Refuses self.old thread System
            (Stores origin addr (bytes_of_number width value)) refusal) }
        ensures cause { IfErr result HasCause }
        ensures unchanged { OnErr result (self.new ≡ self.old) }
    {
        match self
            .above
            .spaces
            .store(Side::System, thread, addr, width, value)
        {
            Ok(()) => Ok(()),
            Err(refusal) => Err(StepRefusal::of(refusal)),
        }
    }
}

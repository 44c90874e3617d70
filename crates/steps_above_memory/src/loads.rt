//! How memory above the cut begins, loads, and what the tests find of an access that memory refuses.

ghost use Rattle.std.specs.Prelude.{◌≡◌, ◌^◌, ◌<◌, ◌≤◌, Option, ℕ, [], length, IfOk, IfErr, IfSome, OnErr};
ghost use Rattle.marks.specs.Ranges.{bytes_of_number};
ghost use Rattle.marks.specs.Marks.{Load};
ghost use Rattle.marks.specs.Wants.{Loads};
ghost use Rattle.memory_map.specs.declared.areas.TheConstants.{THREADS};
ghost use Rattle.race_watch.specs.Stands.{Stands};
ghost use Rattle.space_memory_bytes.specs.Numbers.{HasNumber};
ghost use Rattle.steps_above_memory.specs.Above.{BeginsAbove};
ghost use Rattle.steps_above_memory.specs.Steps.{Makes, Refuses, FindsRefusal};

use crate::above::MemoryAbove;
use crate::refusal::StepRefusal;
use marks::Side;
use memory_map::Range;
use race_watch::Watch;
use space_memory::Spaces;
use space_memory_access::Refusal;

impl MemoryAbove {
    /// Memory with a watch for all threads. Before a run the watch was told nothing.
    pub fn new(spaces: Spaces, watch: Watch) -> MemoryAbove
        requires { length watch.rows ≡ THREADS }
        ensures spaces { result.spaces ≡ spaces }
        ensures watch { result.watch ≡ watch }
        ensures begins { Stands [] watch → BeginsAbove result }
    {
        MemoryAbove { spaces, watch }
    }

    /// The number in `width` bytes, 1 to 8, from the address on, the lowest first, for the thread's code above the cut.
    #[inline(always)]
    pub fn load(&mut self, thread: u8, addr: u64, width: u8) -> Result<u64, StepRefusal>
        requires in_range { thread < THREADS }
        requires some { 1 ≤ width }
        requires at_most_8 { width ≤ 8 }
        ensures loaded { IfOk result (λ value. (origin : Option ℕ) → Makes self.old thread
            (Loads origin addr width) (Load origin addr (bytes_of_number width value)) self.new) }
        ensures fits { IfOk result (λ value. value < 256 ^ width) }
        ensures number { IfOk result (HasNumber self.old.spaces.bytes addr width) }
        ensures spaces { self.new.spaces ≡ self.old.spaces }
        ensures refused { IfErr result (λ refusal. (origin : Option ℕ) → Refuses self.old thread
            (Loads origin addr width) refusal) }
        ensures unchanged { OnErr result (self.new ≡ self.old) }
    {
        let len = width as u64;
        let range = Range { addr, len };
        match self.spaces.load(Side::Replay, thread, addr, width) {
            Ok(value) => match self.watch.access(thread, range, false) {
                Ok(()) => Ok(value),
                Err(error) => Err(StepRefusal::by(error)),
            },
            Err(refusal) => Err(self.found(thread, range, false, refusal)),
        }
    }

    /// The same where a glance shows it and the watch knows the load already: nothing changes. `None` wherever more is to be looked at.
    #[inline(always)]
    pub fn glance(&self, thread: u8, addr: u64, width: u8) -> Option<u64>
        requires in_range { thread < THREADS }
        requires at_most_8 { width ≤ 8 }
        ensures loaded { IfSome result (λ value. (origin : Option ℕ) → Makes self.now thread
            (Loads origin addr width) (Load origin addr (bytes_of_number width value)) self.now) }
        ensures fits { IfSome result (λ value. value < 256 ^ width) }
        ensures number { IfSome result (HasNumber self.now.spaces.bytes addr width) }
    {
        let len = width as u64;
        if self.watch.has(thread, Range { addr, len }, false) {
            self.spaces.glance(Side::Replay, thread, addr, width)
        } else {
            None
        }
    }

    /// What the tests find of an access that memory refuses: a race comes before all but the other side's memory.
    #[inline(never)]
    pub(crate) fn found(
        &self,
        thread: u8,
        range: Range,
        write: bool,
        refusal: Refusal,
    ) -> StepRefusal
        requires { thread < THREADS }
        ensures { FindsRefusal self.now thread write range refusal result }
    {
        if let Refusal::OtherSpace { .. } = refusal {
            return StepRefusal::of(refusal);
        }
        match self.watch.test(thread, range, write) {
            Ok(()) => StepRefusal::of(refusal),
            Err(error) => StepRefusal::by(error),
        }
    }
}

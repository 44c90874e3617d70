//! Stores.

ghost use Rattle.std.specs.Prelude.{◌≡◌, ◌<◌, ◌≤◌, ◌↔◌, true, Option, ℕ, IsOk, IfErr, OnOk, OnErr};
ghost use Rattle.marks.specs.Ranges.{bytes_of_number};
ghost use Rattle.marks.specs.declared.side.Side.TheVariants.{Replay};
ghost use Rattle.marks.specs.Marks.{Store};
ghost use Rattle.marks.specs.Wants.{Stores};
ghost use Rattle.memory_map.specs.declared.areas.TheConstants.{THREADS};
ghost use Rattle.space_memory_access.specs.Accesses.{IsAllowed, IsRefused};
ghost use Rattle.space_memory_laws.specs.Refusals.{access};
ghost use Rattle.space_memory_laws.specs.Changes.{IsStored};
ghost use Rattle.steps_above_memory.specs.Steps.{Makes, Refuses};

use crate::above::MemoryAbove;
use crate::refusal::StepRefusal;
use marks::Side;
use memory_map::{CONSTANTS, Range};
use space_memory::Spaces;
use space_memory_access::Refusal;

/// Whether memory would refuse a store of code above the cut, of 1 to 8 bytes.
fn may_store(spaces: &Spaces, thread: u8, addr: u64, width: u8) -> Result<(), Refusal>
    requires some { 1 ≤ width }
    requires at_most_8 { width ≤ 8 }
    ensures allowed { OnOk result (IsAllowed spaces.now.bytes spaces.now.held.regions
        (access thread addr width true)) }
    ensures refused { IfErr result (IsRefused spaces.now.bytes spaces.now.held.regions
        (access thread addr width true)) }
{
    if let Err(refusal) = spaces.load(Side::Replay, thread, addr, width) {
        return Err(refusal);
    }
    let len = width as u64;
    match (Range { addr, len }).first_common(CONSTANTS) {
        Some(addr) => Err(Refusal::ReadOnly { addr }),
        None => Ok(()),
    }
}

impl MemoryAbove {
    /// Writes the low `width` bytes of the value, 1 to 8, from the address on, the lowest first, for the thread's code above
    /// the cut.
    #[inline(always)]
    pub fn store(&mut self, thread: u8, addr: u64, width: u8, value: u64) -> Result<(), StepRefusal>
        requires in_range { thread < THREADS }
        requires some { 1 ≤ width }
        requires at_most_8 { width ≤ 8 }
        ensures stored { OnOk result ((origin : Option ℕ) → Makes self.old thread
            (Stores origin addr (bytes_of_number width value))
            (Store origin addr (bytes_of_number width value)) self.new) }
        ensures spaces { OnOk result
            (IsStored Replay self.old.spaces self.new.spaces thread addr width value) }
        ensures refused { IfErr result (λ refusal. (origin : Option ℕ) → Refuses self.old thread
            (Stores origin addr (bytes_of_number width value)) refusal) }
        ensures unchanged { OnErr result (self.new ≡ self.old) }
    {
        let len = width as u64;
        if !self.watch.has(thread, Range { addr, len }, true) {
            return self.store_anew(thread, addr, width, value);
        }
        match self.spaces.store(Side::Replay, thread, addr, width, value) {
            Ok(()) => Ok(()),
            Err(refusal) => Err(StepRefusal::of(refusal)),
        }
    }

    // A store that the watch has to test and to keep: before it is told, memory says whether it takes the store.
    #[inline(never)]
    fn store_anew(
        &mut self,
        thread: u8,
        addr: u64,
        width: u8,
        value: u64,
    ) -> Result<(), StepRefusal>
        requires in_range { thread < THREADS }
        requires some { 1 ≤ width }
        requires at_most_8 { width ≤ 8 }
        ensures stored { OnOk result ((origin : Option ℕ) → Makes self.old thread
            (Stores origin addr (bytes_of_number width value))
            (Store origin addr (bytes_of_number width value)) self.new) }
        ensures spaces { OnOk result
            (IsStored Replay self.old.spaces self.new.spaces thread addr width value) }
        ensures refused { IfErr result (λ refusal. (origin : Option ℕ) → Refuses self.old thread
            (Stores origin addr (bytes_of_number width value)) refusal) }
        ensures unchanged { OnErr result (self.new ≡ self.old) }
    {
        let len = width as u64;
        let range = Range { addr, len };
        if let Err(refusal) = may_store(&self.spaces, thread, addr, width) {
            return Err(self.found(thread, range, true, refusal));
        }
        if let Err(error) = self.watch.access_unseen(thread, range, true) {
            return Err(StepRefusal::by(error));
        }
        match self.spaces.store(Side::Replay, thread, addr, width, value) {
            Ok(()) => Ok(()),
            Err(_) => unreachable!("memory takes the store"),
        }
    }
}

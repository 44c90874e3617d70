//! The pool below the cut.

ghost use Rattle.std.specs.Prelude.{◌≡◌, IfErr, OnOk, OnErr};
ghost use Rattle.steps_above_memory.specs.Steps.{HasCause};
ghost use Rattle.recorder_memory.specs.Below.{FreesBlock, GivesBlock, RefusesFree};

use crate::memory::Memory;
use marks::Side;
use steps_above_memory::StepRefusal;

impl Memory {
    /// A new block of so many zero bytes below the cut: its address, or 0 where none is given.
    pub fn alloc_below(&mut self, size: u64) -> u64
        ensures { GivesBlock self.old size result self.new }
    {
        match self.above.spaces.alloc_in(Side::System, size) {
            Some(addr) => addr,
            None => 0,
        }
    }

    /// Frees the block below the cut that begins at the address. At address 0 nothing is freed.
    pub fn free_below(&mut self, addr: u64) -> Result<(), StepRefusal>
        ensures freed { OnOk result (FreesBlock self.old addr self.new) }
        ensures refused { IfErr result (RefusesFree self.old addr) }
        ensures cause { IfErr result HasCause }
        ensures unchanged { OnErr result (self.new ≡ self.old) }
    {
        match self.above.spaces.free_in(Side::System, addr) {
            Ok(_) => Ok(()),
            Err(refusal) => Err(StepRefusal::of(refusal)),
        }
    }
}

//! What `r2_print` reads below the cut.

ghost use Rattle.std.specs.Prelude.{◌<◌, IfOk, IfErr, OnOk};
ghost use Rattle.memory_map.specs.declared.areas.TheConstants.{THREADS};
ghost use Rattle.recorder_memory.specs.Below.{Prints, RefusesPrint};
ghost use Rattle.recorder_memory.specs.Printing.{ReadsOn, RefusesOn};

use crate::memory::Memory;
use marks::Side;
use memory_map::Range;
use space_memory::{HoldError, Spaces};
use std::alloc::Global;
use steps_above_memory::StepRefusal;

/// Adds the bytes of a range to others, as code of the thread below the cut reads them.
fn read_on(
    spaces: &Spaces,
    alloc: Global,
    thread: u8,
    range: Range,
    bytes: &mut Vec<u8>,
) -> Result<(), StepRefusal>
    requires { thread < THREADS }
    ensures read { OnOk result (ReadsOn spaces.now thread range bytes.old.items bytes.new.items) }
    ensures refused { IfErr result (RefusesOn spaces.now thread range) }
{
    match spaces.copy(alloc, Side::System, thread, range) {
        Ok(read) => match bytes.extend_from_slice(read.as_slice()) {
            Ok(()) => Ok(()),
            Err(_) => Err(StepRefusal::Memory),
        },
        Err(HoldError::Refused(refusal)) => Err(StepRefusal::of(refusal)),
        Err(HoldError::Memory) => Err(StepRefusal::Memory),
    }
}

impl Memory {
    /// The bytes of the ranges in a row, as `r2_print` reads them for the thread's code below the cut.
    pub fn print_below(
        &self,
        alloc: Global,
        thread: u8,
        ranges: &[Range],
    ) -> Result<Vec<u8>, StepRefusal>
        requires { thread < THREADS }
        ensures printed { IfOk result (λ bytes. Prints self.now thread ranges.now bytes.items) }
        ensures refused { IfErr result (RefusesPrint self.now thread ranges.now) }
    {
        let mut bytes = Vec::new(alloc);
        for range in ranges {
            if let Err(refusal) = read_on(&self.above.spaces, alloc, thread, *range, &mut bytes) {
                return Err(refusal);
            }
        }
        Ok(bytes)
    }
}

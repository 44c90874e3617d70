//! The stubs of a replay.

ghost use Rattle.std.specs.Prelude.{◌+◌, ◌≤◌, length, IfOk};
ghost use Rattle.stub_operations.specs.declared.purpose.Purpose.TheVariants.{Replay};
ghost use Rattle.call_operations.specs.Sets.{AreStubs};

use annot_reader::Iface;
use c_types_program::TypedProgram;
use call_operations::stubs;
use std::alloc::{AllocError, Global};
use stub_operations::{Purpose, StubSet};

/// The stubs that replay a run of the program: of each function of the interface what its annotations say, with nothing below its
/// calls; of each external outside it what is done below the cut. `AllocError` where there is no memory for them.
pub fn replay_stubs(
    alloc: Global,
    program: &TypedProgram,
    iface: &Iface,
) -> Result<StubSet, AllocError>
    requires { 16 + length program.now.functions ≤ 65536 }
    ensures { IfOk result (AreStubs Replay program.now.functions iface.now) }
{
    stubs(alloc, Purpose::Replay, program.functions(), iface)
}

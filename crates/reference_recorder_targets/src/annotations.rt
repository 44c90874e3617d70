//! What annotations say at a call.

ghost use Rattle.std.specs.Prelude.{◌≡◌, OnOk};
ghost use Rattle.c_code.specs.Valid.{IsValid};
ghost use Rattle.stub_operations.specs.Stubs.{added_at, or_none};
ghost use Rattle.whole_runs.specs.World.{World, stubs_below};
ghost use Rattle.reference_recorder_targets.specs.Said.{done_on, stubs_on};
ghost use Rattle.reference_recorder_targets.specs.Annotated.{AreOf};

use c_code_fused::FusedCode;
use marks::Side;
use std::alloc::AllocError;
use stub_calls::Done;
use stub_operations::{StubOp, StubSet};

/// The code of a program, and what is done at the calls of its functions.
#[derive(Clone, Copy)]
pub struct Annotations<'a> {
    pub code: &'a FusedCode,
    pub stubs: &'a StubSet,
}

impl Annotations<'_> {
    /// Reads what is done where code of the side calls the function with these arguments, and it has this result; 0 before that is
    /// known.
    ///
    /// `AllocError` where there is no memory; nothing is known of `done` then.
    pub fn say(
        self,
        done: &mut Done,
        side: Side,
        func: u16,
        args: &[u64],
        returned: u64,
    ) -> Result<(), AllocError>
        ensures { (w : World) → AreOf w self.entry →
            OnOk result (done.new ≡ done_on w side func args.now returned) }
    {
        check(self.code);
        let ops = operations(self.stubs, side, func);
        done.fill(self.code.code(), ops, func, args, returned)
    }
}

// What is known of all code.
fn check(code: &FusedCode)
    ensures { IsValid code.now }
{
    let _instrs = code.instrs();
}

// The operations of the function: one that isn't of the interface has operations of its own below the cut.
fn operations(stubs: &StubSet, side: Side, func: u16) -> &[StubOp]
    ensures { result.now ≡ or_none (added_at (stubs_on side stubs.now func) func) }
{
    match side {
        Side::Replay => stubs.ops(func),
        Side::System => operations_below(stubs, func),
    }
}

fn operations_below(stubs: &StubSet, func: u16) -> &[StubOp]
    ensures { result.now ≡ or_none (added_at (stubs_below stubs.now func) func) }
{
    if stubs.is_added(func) {
        stubs.ops(func)
    } else {
        stubs.below(func)
    }
}

//! How a run ends in place of a step.

ghost use Rattle.std.specs.Prelude.{◌≡◌, None, IfOk};
ghost use Rattle.whole_runs.specs.Ends.{breach_end, fault_end as end_of_fault};
ghost use Rattle.recorder_state.specs.Inputs.{world_of};
ghost use Rattle.reference_recorder_rules.specs.Steps.{IsFaultAs};
ghost use Rattle.reference_recorder_faults.specs.Faults.{IsAtFault};
ghost use Rattle.reference_recorder.specs.declared.steps.Coming.TheVariants.{End};
ghost use Rattle.reference_recorder.specs.Steps.{ComesNext};
ghost use Rattle.whole_runs.specs.declared.ending.Ending.TheVariants as ending;

use crate::steps::Coming;
use marks::{BreachKind, FaultKind, Side};
use recorder_state::Inputs;
use recorder_threads::Want;
use reference_recorder_faults::{fault_above, fault_below};
use reference_recorder_marks::Mark;
use std::alloc::{AllocError, Global};
use whole_runs::{Ending, Halt};

/// The run is halted.
pub fn halted(why: Halt) -> Coming
    ensures { result ≡ End None (ending.Halted why) }
{
    Coming::End {
        last: None,
        ending: Ending::Halted(why),
    }
}

/// The thread's step would be a breach.
pub fn breached(kind: BreachKind, thread: u8, address: u64, other: Option<u8>) -> Coming
    ensures { result ≡ End None (breach_end kind thread address other) }
{
    Coming::End {
        last: None,
        ending: Ending::Breach {
            kind: kind.number(),
            thread,
            addr: address,
            other,
        },
    }
}

/// The tests of the thread's step find a fault of this kind, which comes in its place.
///
/// `AllocError` where there is no memory.
pub fn faulted(
    alloc: Global,
    inputs: Inputs<'_>,
    marks: &[Mark],
    thread: u8,
    side: Side,
    args: &[u64],
    want: Want,
    kind: FaultKind,
) -> Result<Coming, AllocError>
    requires { IsAtFault (world_of inputs) marks.now thread side args.now want kind }
    ensures { (f : IsAtFault (world_of inputs.entry) marks.now thread side args.now want kind) →
        IfOk result (ComesNext (world_of inputs.entry) marks.now f.at.past) }
{
    let mark = fault_mark(alloc, inputs, marks, thread, side, args, want, kind)?;
    Ok(Coming::End {
        last: Some(mark),
        ending: fault_end(side, kind, thread),
    })
}

// The mark of the fault.
fn fault_mark(
    alloc: Global,
    inputs: Inputs<'_>,
    marks: &[Mark],
    thread: u8,
    side: Side,
    args: &[u64],
    want: Want,
    kind: FaultKind,
) -> Result<Mark, AllocError>
    requires { IsAtFault (world_of inputs) marks.now thread side args.now want kind }
    ensures { (f : IsAtFault (world_of inputs.entry) marks.now thread side args.now want kind) →
        IfOk result (IsFaultAs (world_of inputs.entry) f.at.past.run f.at.step kind) }
{
    match side {
        Side::Replay => fault_above(alloc, inputs, marks, thread, args, want, kind),
        Side::System => fault_below(alloc, inputs, marks, thread, args, want, kind),
    }
}

// A fault of code below the cut is none of the program's, but halts the run.
fn fault_end(side: Side, kind: FaultKind, thread: u8) -> Ending
    ensures { result ≡ end_of_fault side kind thread }
{
    let kind = kind.number();
    match side {
        Side::Replay => Ending::Fault { kind, thread },
        Side::System => Ending::Halted(Halt::System { kind, thread }),
    }
}

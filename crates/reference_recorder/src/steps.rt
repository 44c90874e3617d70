//! One step.

ghost use Rattle.std.specs.Prelude.{◌<◌, length, IfOk};
ghost use Rattle.whole_runs.specs.Tests.{tests};
ghost use Rattle.recorder_state.specs.Inputs.{world_of};
ghost use Rattle.recorder_threads.specs.Threads.{args_at};
ghost use Rattle.reference_recorder_threads.specs.Telling.{AreThreadsAfter, IsPast};
ghost use Rattle.reference_recorder_rules.specs.Steps.{IsAtStep, IsToMake};
ghost use Rattle.reference_recorder_given.specs.Given.{shown};
ghost use Rattle.reference_recorder_findings.specs.Findings.{IsFound};
ghost use Rattle.reference_recorder_made.specs.Asking.{IsGivenTo, asked_func};
ghost use Rattle.reference_recorder.specs.Steps.{ComesNext, IsGivenFor};

use crate::asked::{given_for, lacking};
use crate::ends::{breached, faulted, halted};
use crate::room::with_room;
use crate::turns::turn;
use marks::Side;
use recorder_state::{Inputs, Turn};
use recorder_threads::{Threads, Want};
use reference_recorder_checks::first_found;
use reference_recorder_findings::Finding;
use reference_recorder_given::Given;
use reference_recorder_made::make;
use reference_recorder_marks::Mark;
use reference_recorder_targets::Annotations;
use reference_recorder_threads::threads_after;
use reference_recorder_uses::Past;
use std::alloc::{AllocError, Global};
use whole_runs::{Ending, Halt};

/// What comes after the marks of a run.
#[derive(Drop)]
pub enum Coming {
    /// A step is made.
    Mark(Mark),
    /// The run makes no more steps, and ends so.
    End {
        /// The mark of the fault that ends it, if one does.
        last: Option<Mark>,
        ending: Ending,
    },
}

/// What comes after these marks of a run, the oldest first.
///
/// `AllocError` where there is no memory.
pub fn step(alloc: Global, inputs: Inputs<'_>, marks: &[Mark]) -> Result<Coming, AllocError>
    requires { IsPast (world_of inputs) marks.now }
    ensures { (p : IsPast (world_of inputs.entry) marks.now) →
        IfOk result (ComesNext (world_of inputs.entry) marks.now p) }
{
    let threads = threads_after(alloc, inputs, marks)?;
    match turn(&threads, inputs, marks) {
        Turn::Ended(ending) => Ok(Coming::End { last: None, ending }),
        Turn::Step { thread, side, want } => {
            try_step(alloc, inputs, &threads, marks, thread, side, want)
        }
    }
}

// What comes where this thread steps next: its tests find something, or it goes on.
fn try_step(
    alloc: Global,
    inputs: Inputs<'_>,
    threads: &Threads,
    marks: &[Mark],
    thread: u8,
    side: Side,
    want: Want,
) -> Result<Coming, AllocError>
    requires threads { AreThreadsAfter (world_of inputs) marks.now threads.now }
    requires started { thread < length threads.now }
    requires at { IsAtStep (world_of inputs) marks.now thread side (args_at threads.now thread) want }
    ensures { (at : IsAtStep (world_of inputs.entry) marks.now thread side (args_at threads.now thread) want) →
        IfOk result (ComesNext (world_of inputs.entry) marks.now at.past) }
{
    let args = threads.args(thread);
    let given = given_for(threads, inputs, marks, thread, want, args);
    let first = found(alloc, inputs, marks, thread, side, want, args, given)?;
    tested(
        alloc, inputs, threads, marks, given, thread, side, want, args, first,
    )
}

// What comes where the tests of the step find this first.
fn tested(
    alloc: Global,
    inputs: Inputs<'_>,
    threads: &Threads,
    marks: &[Mark],
    given: Given<'_>,
    thread: u8,
    side: Side,
    want: Want,
    args: &[u64],
    first: Option<Finding>,
) -> Result<Coming, AllocError>
    requires threads { AreThreadsAfter (world_of inputs) marks.now threads.now }
    requires at { IsAtStep (world_of inputs) marks.now thread side args.now want }
    requires given { (p : IsPast (world_of inputs) marks.now) →
        IsGivenFor (world_of inputs) p.run thread args.now (asked_func want) (shown given) }
    requires found { (at : IsAtStep (world_of inputs) marks.now thread side args.now want) →
        IsFound (tests (world_of inputs) at.past.run at.step.thread at.step.side at.step.want) first }
    ensures { (at : IsAtStep (world_of inputs.entry) marks.now thread side args.now want) →
        IfOk result (ComesNext (world_of inputs.entry) marks.now at.past) }
{
    match first {
        Some(Finding::Fault(kind)) => faulted(alloc, inputs, marks, thread, side, args, want, kind),
        Some(
            Finding::Breach {
                kind,
                address,
                other,
            },
        ) => Ok(breached(kind, thread, address, other)),
        None => go_on(
            alloc, inputs, threads, marks, given, thread, side, want, args,
        ),
    }
}

// What the tests of the step find first.
fn found(
    alloc: Global,
    inputs: Inputs<'_>,
    marks: &[Mark],
    thread: u8,
    side: Side,
    want: Want,
    args: &[u64],
    given: Given<'_>,
) -> Result<Option<Finding>, AllocError>
    requires at { IsAtStep (world_of inputs) marks.now thread side args.now want }
    ensures { (at : IsAtStep (world_of inputs.entry) marks.now thread side args.now want) →
        IsGivenFor (world_of inputs.entry) at.past.run thread args.now (asked_func want) (shown given.entry) →
        IfOk result (IsFound (tests (world_of inputs.entry) at.past.run at.step.thread at.step.side
        at.step.want)) }
{
    let run = Past {
        placed: inputs.placed,
        marks,
    };
    let annotations = Annotations {
        code: inputs.code,
        stubs: inputs.stubs,
    };
    first_found(alloc, run, annotations, thread, side, want, args, given)
}

// What comes where no test fails.
fn go_on(
    alloc: Global,
    inputs: Inputs<'_>,
    threads: &Threads,
    marks: &[Mark],
    given: Given<'_>,
    thread: u8,
    side: Side,
    want: Want,
    args: &[u64],
) -> Result<Coming, AllocError>
    requires threads { AreThreadsAfter (world_of inputs) marks.now threads.now }
    requires to { IsToMake (world_of inputs) marks.now thread side args.now want }
    requires given { (p : IsPast (world_of inputs) marks.now) →
        IsGivenFor (world_of inputs) p.run thread args.now (asked_func want) (shown given) }
    ensures { (to : IsToMake (world_of inputs.entry) marks.now thread side args.now want) →
        IfOk result (ComesNext (world_of inputs.entry) marks.now to.at.past) }
{
    match lacking(want, given) {
        Some(func) => Ok(halted(Halt::Script(func))),
        None => made(
            alloc, inputs, threads, marks, given, thread, side, want, args,
        ),
    }
}

// What comes where the step is made.
fn made(
    alloc: Global,
    inputs: Inputs<'_>,
    threads: &Threads,
    marks: &[Mark],
    given: Given<'_>,
    thread: u8,
    side: Side,
    want: Want,
    args: &[u64],
) -> Result<Coming, AllocError>
    requires threads { AreThreadsAfter (world_of inputs) marks.now threads.now }
    requires to { IsToMake (world_of inputs) marks.now thread side args.now want }
    requires given { IsGivenTo (world_of inputs) marks.now thread args.now (asked_func want) (shown given) }
    ensures { (to : IsToMake (world_of inputs.entry) marks.now thread side args.now want) →
        IfOk result (ComesNext (world_of inputs.entry) marks.now to.at.past) }
{
    let mark = make(
        alloc, inputs, threads, marks, given, thread, side, want, args,
    )?;
    with_room(alloc, inputs, marks, mark)
}

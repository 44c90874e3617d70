//! Whichever the step is.

ghost use Rattle.std.specs.Prelude.{IfOk};
ghost use Rattle.marks.specs.declared.side.Side.TheVariants.{System};
ghost use Rattle.recorder_threads.specs.declared.wants.Want.TheVariants as told;
ghost use Rattle.recorder_state.specs.Inputs.{world_of};
ghost use Rattle.reference_recorder_threads.specs.Telling.{AreThreadsAfter};
ghost use Rattle.reference_recorder_given.specs.Given.{shown};
ghost use Rattle.reference_recorder_rules.specs.Steps.{IsMadeAs, IsToMake};
ghost use Rattle.reference_recorder_made.specs.Asking.{IsGivenTo, asked_func};

use marks::Side;
use recorder_state::Inputs;
use recorder_threads::{Threads, Want};
use reference_recorder_acts::{enter, leave, load, store, turn};
use reference_recorder_call_events::{body_return, call, give_return};
use reference_recorder_events::{alloc_block, free_block, is_called_back, up, up_return};
use reference_recorder_given::Given;
use reference_recorder_marks::Mark;
use reference_recorder_steps::step;
use std::alloc::{AllocError, Global};

/// The mark that a run makes after these, the oldest first, where the code of the thread wants this on this side of the cut, with these
/// arguments, and no test of the step fails. A builtin or external whose result the code waits for comes to what is given.
///
/// `AllocError` where there is no memory.
pub fn make(
    alloc: Global,
    inputs: Inputs<'_>,
    threads: &Threads,
    marks: &[Mark],
    given: Given<'_>,
    thread: u8,
    side: Side,
    want: Want,
    args: &[u64],
) -> Result<Mark, AllocError>
    requires at { IsToMake (world_of inputs) marks.now thread side args.now want }
    requires threads { AreThreadsAfter (world_of inputs) marks.now threads.now }
    requires given { IsGivenTo (world_of inputs) marks.now thread args.now (asked_func want) (shown given) }
    ensures { (t : IsToMake (world_of inputs.entry) marks.now thread side args.now want) →
        IfOk result (IsMadeAs (world_of inputs.entry) t.at.past.run t.at.step) }
{
    match want {
        Want::Turn => Ok(turn(marks, thread, side)),
        Want::Load { addr, width } => load(alloc, inputs, marks, thread, side, addr, width),
        Want::Store { addr, width, value } => {
            store(alloc, marks, thread, side, addr, width, value)
        }
        Want::Enter { func, .. } => enter(alloc, inputs, marks, thread, side, func, args),
        Want::Leave => leave(alloc, marks, thread, side),
        Want::Alloc { size } => alloc_block(alloc, inputs, marks, thread, size),
        Want::Free { addr } => free_block(alloc, inputs, marks, thread, addr),
        Want::Call { func, .. } => call(alloc, inputs, marks, thread, func, args),
        Want::Give { func } => give_return(alloc, inputs, marks, thread, func, args, given),
        Want::Return { func, result } => {
            body_return(alloc, inputs, marks, thread, func, args, result)
        }
        Want::CallBack { func, size } => {
            call_back(alloc, inputs, marks, thread, func, size, args)
        }
        Want::UpReturn { result } => up_return(alloc, inputs, marks, thread, result),
        Want::Step { indirect, func } => {
            step(alloc, inputs, marks, given, thread, indirect, func, args)
        }
        Want::Fault(_) => unreachable!("the tests of a step find what code can't go on with"),
    }
}

// A function that code below the cut calls through its address: an Up where it is called back, else its frame of `size` bytes.
fn call_back(
    alloc: Global,
    inputs: Inputs<'_>,
    marks: &[Mark],
    thread: u8,
    func: u16,
    size: u64,
    args: &[u64],
) -> Result<Mark, AllocError>
    requires { IsToMake (world_of inputs) marks.now thread System args.now (told.CallBack func size) }
    ensures { (t : IsToMake (world_of inputs.entry) marks.now thread System args.now
        (told.CallBack func size)) →
        IfOk result (IsMadeAs (world_of inputs.entry) t.at.past.run t.at.step) }
{
    if is_called_back(inputs.code, marks, func) {
        return up(alloc, inputs, marks, thread, func, args);
    }
    enter(alloc, inputs, marks, thread, Side::System, func, args)
}

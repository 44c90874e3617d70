//! Calls back of functions above the cut, and their returns.

ghost use Rattle.std.specs.Prelude.{◌≡◌, IfOk};
ghost use Rattle.whole_runs.specs.World.{World};
ghost use Rattle.whole_runs.specs.Tests.{is_back};
ghost use Rattle.recorder_threads.specs.declared.wants.Want.TheVariants as wants;
ghost use Rattle.recorder_state.specs.Inputs.{world_of};
ghost use Rattle.reference_recorder_marks.specs.Marks.{past};
ghost use Rattle.reference_recorder_rules.specs.Steps.{IsMadeAs};
ghost use Rattle.reference_recorder_events.specs.Events.{IsMarkAbove, IsNextAbove, IsUpNext};

use crate::making::next_event;
use c_code_fused::FusedCode;
use recorder_state::{Inputs, main_of};
use reference_recorder_calls::open_ups;
use reference_recorder_marks::{EventKind, Mark, WordList};
use reference_recorder_regions::is_registered;
use std::alloc::{AllocError, Global};
use stub_calls::Done;

/// Whether code below the cut that calls the function through its address goes up: it is `main`, or a Call registered it.
pub fn is_called_back(code: &FusedCode, marks: &[Mark], func: u16) -> bool
    ensures { (w : World) → w.laid.code ≡ code.now → result ≡ is_back w (past marks.now) func }
{
    func == main_of(code) || is_registered(marks, func)
}

/// The mark of an Up: code below the cut calls back this function with these arguments.
///
/// `AllocError` where there is no memory.
pub fn up(
    alloc: Global,
    inputs: Inputs<'_>,
    marks: &[Mark],
    thread: u8,
    func: u16,
    args: &[u64],
) -> Result<Mark, AllocError>
    requires { IsUpNext (world_of inputs) marks.now thread func args.now }
    ensures { (u : IsUpNext (world_of inputs.entry) marks.now thread func args.now) →
        IfOk result (IsMadeAs (world_of inputs.entry) u.next.at.past.run u.next.at.step) }
{
    let args = WordList::from_slice(alloc, args)?;
    let no_call = Done::new(alloc);
    next_event(
        alloc,
        inputs,
        marks,
        thread,
        EventKind::Up { func, args },
        &no_call,
    )
}

/// The mark of an UpRet: the function that was called back last returns this.
///
/// `AllocError` where there is no memory.
pub fn up_return(
    alloc: Global,
    inputs: Inputs<'_>,
    marks: &[Mark],
    thread: u8,
    value: u64,
) -> Result<Mark, AllocError>
    requires { IsNextAbove (world_of inputs) marks.now thread (wants.UpReturn value) }
    ensures { IfOk result (IsMarkAbove (world_of inputs.entry) marks.now thread (wants.UpReturn value)) }
{
    let ups = open_ups(alloc, marks, thread)?;
    // What returns was called back.
    let func = ups[0];
    let no_call = Done::new(alloc);
    next_event(
        alloc,
        inputs,
        marks,
        thread,
        EventKind::UpRet {
            func,
            result: value,
        },
        &no_call,
    )
}

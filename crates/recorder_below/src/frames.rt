//! Frames.

ghost use Rattle.std.specs.Prelude.{◌+◌, ◌≡◌, ℕ, false, IfErr, OnOk};
ghost use Rattle.marks.specs.declared.side.Side.TheVariants.{System};
ghost use Rattle.whole_runs.specs.Tests.{is_back};
ghost use Rattle.recorder_threads.specs.declared.wants.Want.TheVariants as want;
ghost use Rattle.recorder_state.specs.Inputs.{world_of};
ghost use Rattle.recorder_state.specs.Stands.{IsReached};
ghost use Rattle.recorder_state.specs.Turns.{IsAtStep};
ghost use Rattle.recorder_state.specs.Ends.{IsStopped};
ghost use Rattle.recorder_below.specs.Frames.{IsEntering};

use c_code::Side;
use c_machine::Answer;
use recorder_plain::{ParamPlaces, keeps_mode, mode_breach};
use recorder_state::{Inputs, RunState, Stop};

/// The step in which the thread enters the function: it gets a frame of `size` bytes. A function that a pointer names must be one
/// that may run below the cut.
pub fn enter(
    state: &mut RunState,
    inputs: Inputs<'_>,
    thread: u8,
    indirect: bool,
    func: u16,
    size: u64,
) -> Result<(), Stop>
    requires { IsAtStep (world_of inputs) state.old thread System (want.Enter indirect func size) }
    ensures made { OnOk result (IsReached (world_of inputs.entry) state.new) }
    ensures steps { OnOk result (state.new.steps ≡ state.old.steps + 1) }
    ensures stopped { IfErr result (IsStopped (world_of inputs.entry) state.new) }
{
    frame(state, inputs, thread, indirect, func, size)
}

/// The step in which the thread calls the function through its address, where that is neither `main` nor registered: it gets a frame
/// of `size` bytes, and must be one that may run below the cut.
pub fn call_back(
    state: &mut RunState,
    inputs: Inputs<'_>,
    thread: u8,
    func: u16,
    size: u64,
) -> Result<(), Stop>
    requires { (at : IsAtStep (world_of inputs) state.old thread System (want.CallBack func size)) ×
        (is_back (world_of inputs) at.reached.past func ≡ false) }
    ensures made { OnOk result (IsReached (world_of inputs.entry) state.new) }
    ensures steps { OnOk result (state.new.steps ≡ state.old.steps + 1) }
    ensures stopped { IfErr result (IsStopped (world_of inputs.entry) state.new) }
{
    frame(state, inputs, thread, true, func, size)
}

// A frame of the function, whose mode is tested first where `tested`.
#[inline(always)]
fn frame(
    state: &mut RunState,
    inputs: Inputs<'_>,
    thread: u8,
    tested: bool,
    func: u16,
    size: u64,
) -> Result<(), Stop>
    requires { IsEntering (world_of inputs) state.old thread tested func size }
    ensures made { OnOk result (IsReached (world_of inputs.entry) state.new) }
    ensures steps { OnOk result (state.new.steps ≡ state.old.steps + 1) }
    ensures stopped { IfErr result (IsStopped (world_of inputs.entry) state.new) }
{
    if !keeps_mode(&inputs.placed.system, tested, func) {
        return Err(Stop::of(thread, Side::System, mode_breach(func)));
    }
    let places = ParamPlaces::of(inputs.code, func);
    let entered = state.memory.enter_below(
        thread,
        size,
        places.offsets.as_slice(),
        places.widths.as_slice(),
        state.threads.args(thread),
    );
    match entered {
        Ok(frame) => {
            state.go_on(inputs, thread, Side::System, Answer::Frame(frame));
            Ok(())
        }
        Err(refusal) => Err(Stop::of(thread, Side::System, refusal)),
    }
}

/// The step in which the thread gives back its innermost frame.
pub fn leave(state: &mut RunState, inputs: Inputs<'_>, thread: u8)
    requires { IsAtStep (world_of inputs) state.old thread System want.Leave }
    ensures made { IsReached (world_of inputs.entry) state.new }
    ensures steps { state.new.steps ≡ state.old.steps + 1 }
{
    let _frame = state.memory.leave_below(thread);
    state.go_on(inputs, thread, Side::System, Answer::Go);
}

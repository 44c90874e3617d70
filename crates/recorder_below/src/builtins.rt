//! Builtins.

ghost use Rattle.std.specs.Prelude.{◌+◌, ◌≡◌, Some, IfErr, OnOk};
ghost use Rattle.marks.specs.declared.side.Side.TheVariants.{System};
ghost use Rattle.c_builtins.specs.declared.builtin.Builtin.{Builtin as Builtins};
ghost use Rattle.c_builtins.specs.declared.builtin.Builtin.TheVariants as builtins;
ghost use Rattle.c_code.specs.Machine.{first as first_of};
ghost use Rattle.stub_operations.specs.Stubs.{added_at, or_none};
ghost use Rattle.whole_runs.specs.World.{stubs_below};
ghost use Rattle.whole_runs.specs.Outcomes.{builtin_of};
ghost use Rattle.recorder_memory.specs.Below.{IsForThreads};
ghost use Rattle.recorder_threads.specs.declared.wants.Want.TheVariants as want;
ghost use Rattle.recorder_state.specs.Inputs.{world_of};
ghost use Rattle.recorder_state.specs.Stands.{IsReached};
ghost use Rattle.recorder_state.specs.Turns.{IsAtStep};
ghost use Rattle.recorder_state.specs.Ends.{IsStopped};
ghost use Rattle.recorder_below.specs.Builtins.{IsAtBuiltin};

use c_builtins::Builtin;
use c_code::Side;
use recorder_plain::{keeps_mode, mode_breach};
use recorder_state::{Inputs, RunState, Stop};
use recorder_system::Given;
use std::alloc::Global;
use stub_calls::Done;
use stub_operations::{StubOp, StubSet};

/// The step in which the thread calls the builtin with this number. One that a pointer names must be one that may run below the cut.
/// `done` is filled with what is done at the call of `r2_print`.
pub fn builtin(
    state: &mut RunState,
    alloc: Global,
    inputs: Inputs<'_>,
    done: &mut Done,
    thread: u8,
    indirect: bool,
    func: u16,
    builtin: Builtin,
) -> Result<(), Stop>
    requires at { IsAtStep (world_of inputs) state.old thread System (want.Step indirect func) }
    requires builtin { builtin_of func ≡ Some builtin }
    ensures made { OnOk result (IsReached (world_of inputs.entry) state.new) }
    ensures steps { OnOk result (state.new.steps ≡ state.old.steps + 1) }
    ensures stopped { IfErr result (IsStopped (world_of inputs.entry) state.new) }
{
    if !keeps_mode(&inputs.placed.system, indirect, func) {
        return Err(Stop::of(thread, Side::System, mode_breach(func)));
    }
    match builtin {
        Builtin::Malloc => malloc(state, alloc, inputs, thread, func),
        Builtin::Free => free(state, alloc, inputs, thread, func),
        Builtin::Spawn | Builtin::Join | Builtin::Lock | Builtin::Unlock => {
            threads(state, alloc, inputs, thread, func, builtin)
        }
        Builtin::Print => print(state, alloc, inputs, done, thread, func),
    }
}

// `r2_malloc`: a block of the pool below the cut.
fn malloc(
    state: &mut RunState,
    alloc: Global,
    inputs: Inputs<'_>,
    thread: u8,
    func: u16,
) -> Result<(), Stop>
    requires { IsAtBuiltin (world_of inputs) state.old thread func builtins.Malloc }
    ensures made { OnOk result (IsReached (world_of inputs.entry) state.new) }
    ensures steps { OnOk result (state.new.steps ≡ state.old.steps + 1) }
    ensures stopped { IfErr result (IsStopped (world_of inputs.entry) state.new) }
{
    let size = first(state.threads.args(thread));
    let addr = state.memory.alloc_below(size);
    state.give(alloc, inputs, thread, func, addr)?;
    Ok(())
}

// `r2_free`: a block is given back to the pool below the cut.
fn free(
    state: &mut RunState,
    alloc: Global,
    inputs: Inputs<'_>,
    thread: u8,
    func: u16,
) -> Result<(), Stop>
    requires { IsAtBuiltin (world_of inputs) state.old thread func builtins.Free }
    ensures made { OnOk result (IsReached (world_of inputs.entry) state.new) }
    ensures steps { OnOk result (state.new.steps ≡ state.old.steps + 1) }
    ensures stopped { IfErr result (IsStopped (world_of inputs.entry) state.new) }
{
    let addr = first(state.threads.args(thread));
    if let Err(refusal) = state.memory.free_below(addr) {
        return Err(Stop::of(thread, Side::System, refusal));
    }
    state.give(alloc, inputs, thread, func, 0)?;
    Ok(())
}

// `r2_spawn`, `r2_join`, `r2_lock` or `r2_unlock`: the system says what it comes to.
fn threads(
    state: &mut RunState,
    alloc: Global,
    inputs: Inputs<'_>,
    thread: u8,
    func: u16,
    builtin: Builtin,
) -> Result<(), Stop>
    requires at { IsAtBuiltin (world_of inputs) state.old thread func builtin }
    requires threads { IsForThreads builtin }
    ensures made { OnOk result (IsReached (world_of inputs.entry) state.new) }
    ensures steps { OnOk result (state.new.steps ≡ state.old.steps + 1) }
    ensures stopped { IfErr result (IsStopped (world_of inputs.entry) state.new) }
{
    let arg = first(state.threads.args(thread));
    let value = match state.system.given_by(thread, builtin, arg) {
        Given::Value(value) => value,
        Given::ByPool | Given::Answer(_) | Given::NoMore => {
            unreachable!("the system says what it comes to")
        }
    };
    state.give(alloc, inputs, thread, func, value)?;
    Ok(())
}

// `r2_print`: what it reads is printed.
fn print(
    state: &mut RunState,
    alloc: Global,
    inputs: Inputs<'_>,
    done: &mut Done,
    thread: u8,
    func: u16,
) -> Result<(), Stop>
    requires { IsAtBuiltin (world_of inputs) state.old thread func builtins.Print }
    ensures made { OnOk result (IsReached (world_of inputs.entry) state.new) }
    ensures steps { OnOk result (state.new.steps ≡ state.old.steps + 1) }
    ensures stopped { IfErr result (IsStopped (world_of inputs.entry) state.new) }
{
    done.fill(
        inputs.code.code(),
        ops_below(inputs.stubs, func),
        func,
        state.threads.args(thread),
        0,
    )?;
    match state.memory.print_below(alloc, thread, done.ins()) {
        Ok(bytes) => {
            state.system_output.extend_from_slice(bytes.as_slice())?;
            state.give(alloc, inputs, thread, func, 0)?;
            Ok(())
        }
        Err(refusal) => Err(Stop::of(thread, Side::System, refusal)),
    }
}

/// What is done at calls of the function below the cut. One that isn't of the interface has operations of its own there.
pub fn ops_below(stubs: &StubSet, func: u16) -> &[StubOp]
    ensures { result.now ≡ or_none (added_at (stubs_below stubs.now func) func) }
{
    if stubs.is_added(func) {
        stubs.ops(func)
    } else {
        stubs.below(func)
    }
}

// The first argument, 0 where there is none.
fn first(args: &[u64]) -> u64
    ensures { result ≡ first_of args.now }
{
    args.first().copied().unwrap_or(0)
}

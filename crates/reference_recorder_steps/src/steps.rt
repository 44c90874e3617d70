//! The mark.

ghost use Rattle.std.specs.Prelude.{◌≡◌, ◌≢◌, IfOk};
ghost use Rattle.marks.specs.declared.side.Side.TheVariants.{System};
ghost use Rattle.recorder_threads.specs.declared.wants.Want.TheVariants as told;
ghost use Rattle.whole_runs.specs.Outcomes.{builtin_of as builtin_at};
ghost use Rattle.whole_runs.specs.Below.{NoMore, given as given_in};
ghost use Rattle.whole_runs.specs.Steps.{read_by};
ghost use Rattle.recorder_state.specs.Inputs.{world_of};
ghost use Rattle.reference_recorder_marks.specs.Marks.{past};
ghost use Rattle.reference_recorder_threads.specs.Telling.{IsPast};
ghost use Rattle.reference_recorder_given.specs.Given.{shown};
ghost use Rattle.reference_recorder_rules.specs.Steps.{IsMadeAs, IsToMake};
ghost use Rattle.reference_recorder_steps.specs.Carried.{IsAnswered, IsStepGiven, act_with, step_of};
ghost use Rattle.reference_recorder_steps.specs.Reads.{AllThere};

use crate::answers::answer;
use crate::carried::Carried;
use crate::pool::{allocation, release};
use c_builtins::Builtin;
use marks::Side;
use recorder_state::Inputs;
use reference_recorder_acts::next_mark;
use reference_recorder_given::Given;
use reference_recorder_marks::{Act, Mark, WordList};
use reference_recorder_outcomes::builtin_of;
use std::alloc::{AllocError, Global};

/// The mark that a run makes after these, the oldest first, where the thread calls the builtin or external below the cut, which comes
/// to what is given, and no test of the step fails.
///
/// `AllocError` where there is no memory.
pub fn step(
    alloc: Global,
    inputs: Inputs<'_>,
    marks: &[Mark],
    given: Given<'_>,
    thread: u8,
    indirect: bool,
    func: u16,
    args: &[u64],
) -> Result<Mark, AllocError>
    requires at { IsToMake (world_of inputs) marks.now thread System args.now (told.Step indirect func) }
    requires given { (p : IsPast (world_of inputs) marks.now) →
        shown given ≡ given_in (world_of inputs) p.run thread func args.now }
    requires more { shown given ≢ NoMore }
    ensures { (t : IsToMake (world_of inputs.entry) marks.now thread System args.now
        (told.Step indirect func)) →
        IfOk result (IsMadeAs (world_of inputs.entry) t.at.past.run t.at.step) }
{
    let carried = carried_by(alloc, inputs, marks, given, func, args)?;
    let act = act_with(alloc, func, args, carried)?;
    Ok(next_mark(marks, thread, Side::System, act))
}

// What the call comes to.
fn carried_by(
    alloc: Global,
    inputs: Inputs<'_>,
    marks: &[Mark],
    given: Given<'_>,
    func: u16,
    args: &[u64],
) -> Result<Carried, AllocError>
    requires answered { IsAnswered (builtin_at func) (shown given) }
    requires there { AllThere (world_of inputs) marks.now
        (read_by (world_of inputs) func args.now (builtin_at func)) }
    ensures { IfOk result (λ c. IsStepGiven (world_of inputs.entry) (past marks.now)
        (step_of func args.now c) (shown given.entry) (builtin_at func)) }
{
    match builtin_of(func) {
        Some(Builtin::Malloc) => allocation(alloc, marks, args),
        Some(Builtin::Free) => release(alloc, marks, args),
        Some(Builtin::Spawn)
        | Some(Builtin::Join)
        | Some(Builtin::Lock)
        | Some(Builtin::Unlock)
        | Some(Builtin::Print)
        | None => answer(alloc, inputs, marks, given, func, args),
    }
}

// What the thread does in the mark: the call of the function with these arguments.
fn act_with(alloc: Global, func: u16, args: &[u64], carried: Carried) -> Result<Act, AllocError>
    ensures { IfOk result (λ a. a ≡ act_with (step_of func args.now carried)) }
{
    let args = WordList::from_slice(alloc, args)?;
    Ok(Act::Step {
        func,
        args,
        result: carried.result,
        ins: carried.ins,
        pieces: carried.pieces,
        freed: carried.freed,
    })
}

//! Calls that are given their results.

ghost use Rattle.std.specs.Prelude.{IfOk};
ghost use Rattle.whole_runs.specs.Outcomes.{builtin_of};
ghost use Rattle.whole_runs.specs.Steps.{GivesStep, read_by as read_in};
ghost use Rattle.recorder_state.specs.Inputs.{world_of};
ghost use Rattle.reference_recorder_marks.specs.Marks.{past};
ghost use Rattle.reference_recorder_given.specs.Given.{shown};
ghost use Rattle.reference_recorder_steps.specs.Carried.{IsResult, step_of};
ghost use Rattle.reference_recorder_steps.specs.Reads.{AllThere};

use crate::carried::Carried;
use crate::reads::{annotations_of, read_by};
use marks::Side;
use recorder_state::Inputs;
use reference_recorder_given::Given;
use reference_recorder_marks::{Mark, PieceList, RangeList};
use reference_recorder_targets::{pieces_for, targets};
use std::alloc::{AllocError, Global};

/// What a call that is given a result comes to after these marks, the oldest first: its pieces are written, one after the other, and
/// `r2_print` reads what its caller names.
///
/// `AllocError` where there is no memory.
pub fn answer(
    alloc: Global,
    inputs: Inputs<'_>,
    marks: &[Mark],
    given: Given<'_>,
    func: u16,
    args: &[u64],
) -> Result<Carried, AllocError>
    requires result { IsResult (shown given) }
    requires there { AllThere (world_of inputs) marks.now
        (read_in (world_of inputs) func args.now (builtin_of func)) }
    ensures { IfOk result (λ c. GivesStep (world_of inputs.entry) (past marks.now)
        (step_of func args.now c) (shown given.entry)) }
{
    let Given::Says { result, pieces } = given else {
        unreachable!("the call is given a result")
    };
    let ins = read_by(alloc, inputs, marks, func, args)?;
    let annotations = annotations_of(inputs);
    let places = targets(alloc, annotations, marks, Side::System, func, args, result)?;
    let written = pieces_for(alloc, &places, pieces)?;
    Ok(Carried {
        result,
        ins: PieceList::from(ins),
        pieces: PieceList::from(written),
        freed: RangeList::new(alloc),
    })
}

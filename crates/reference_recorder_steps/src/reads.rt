//! What `r2_print` reads below the cut.

ghost use Rattle.std.specs.Prelude.{IfOk};
ghost use Rattle.marks.specs.declared.side.Side.TheVariants.{System};
ghost use Rattle.whole_runs.specs.World.{interface_on};
ghost use Rattle.whole_runs.specs.Outcomes.{builtin_of as builtin_at};
ghost use Rattle.whole_runs.specs.Steps.{read_by as read_in};
ghost use Rattle.recorder_state.specs.Inputs.{world_of};
ghost use Rattle.reference_recorder_targets.specs.Annotated.{AreOf};
ghost use Rattle.reference_recorder_steps.specs.Reads.{AllThere, AreRead};

use c_builtins::Builtin;
use marks::{Range, Side};
use recorder_state::Inputs;
use reference_recorder_acts::bytes_in;
use reference_recorder_marks::{Mark, Piece};
use reference_recorder_outcomes::builtin_of;
use reference_recorder_targets::Annotations;
use std::alloc::{AllocError, Global};
use stub_calls::Done;

/// The pieces that a call of the builtin or external reads below the cut after these marks, the oldest first: of `r2_print` alone what
/// its caller names.
///
/// `AllocError` where there is no memory.
pub fn read_by(
    alloc: Global,
    inputs: Inputs<'_>,
    marks: &[Mark],
    func: u16,
    args: &[u64],
) -> Result<Vec<Piece>, AllocError>
    requires { AllThere (world_of inputs) marks.now
        (read_in (world_of inputs) func args.now (builtin_at func)) }
    ensures { IfOk result (λ ps. AreRead (world_of inputs.entry) marks.now
        (read_in (world_of inputs.entry) func args.now (builtin_at func)) ps.items) }
{
    match builtin_of(func) {
        Some(Builtin::Malloc) => Ok(Vec::new(alloc)),
        Some(Builtin::Free) => Ok(Vec::new(alloc)),
        Some(Builtin::Spawn) => Ok(Vec::new(alloc)),
        Some(Builtin::Join) => Ok(Vec::new(alloc)),
        Some(Builtin::Lock) => Ok(Vec::new(alloc)),
        Some(Builtin::Unlock) => Ok(Vec::new(alloc)),
        Some(Builtin::Print) => read_by_print(alloc, inputs, marks, func, args),
        None => Ok(Vec::new(alloc)),
    }
}

// What its caller names.
fn read_by_print(
    alloc: Global,
    inputs: Inputs<'_>,
    marks: &[Mark],
    func: u16,
    args: &[u64],
) -> Result<Vec<Piece>, AllocError>
    requires { AllThere (world_of inputs) marks.now
        ((interface_on (world_of inputs) System func).ins func args.now) }
    ensures { IfOk result (λ ps. AreRead (world_of inputs.entry) marks.now
        ((interface_on (world_of inputs.entry) System func).ins func args.now) ps.items) }
{
    let mut done = Done::new(alloc);
    annotations_of(inputs).say(&mut done, Side::System, func, args, 0)?;
    let pieces = read_all(alloc, inputs, marks, done.ins())?;
    Ok(pieces)
}

/// What is done at calls.
pub fn annotations_of(inputs: Inputs<'_>) -> Annotations<'_>
    ensures { AreOf (world_of inputs.entry) result }
{
    Annotations {
        code: inputs.code,
        stubs: inputs.stubs,
    }
}

// The ranges, each with all of its bytes.
fn read_all(
    alloc: Global,
    inputs: Inputs<'_>,
    marks: &[Mark],
    ranges: &[Range],
) -> Result<Vec<Piece>, AllocError>
    requires { AllThere (world_of inputs) marks.now ranges.now }
    ensures { IfOk result (λ ps. AreRead (world_of inputs.entry) marks.now ranges.now ps.items) }
{
    let mut pieces = Vec::new(alloc);
    for range in ranges {
        let bytes = bytes_in(alloc, inputs.placed, marks, *range)?;
        pieces.push(Piece {
            range: *range,
            bytes,
        })?;
    }
    Ok(pieces)
}

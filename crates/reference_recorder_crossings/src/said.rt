//! What annotations say of a call by code above the cut.

ghost use Rattle.std.specs.Prelude.{◌≡◌, IfOk};
ghost use Rattle.marks.specs.declared.side.Side.TheVariants.{Replay};
ghost use Rattle.whole_runs.specs.World.{World};
ghost use Rattle.reference_recorder_targets.specs.Annotated.{AreOf};
ghost use Rattle.reference_recorder_targets.specs.Said.{done_on};

use marks::Side;
use reference_recorder_targets::Annotations;
use std::alloc::{AllocError, Global};
use stub_calls::Done;

// What is done at the call of the function with these arguments that has this result; 0 before that is known.
pub(crate) fn done_at(
    alloc: Global,
    annotations: Annotations<'_>,
    func: u16,
    args: &[u64],
    returned: u64,
) -> Result<Done, AllocError>
    ensures { (w : World) → AreOf w annotations.entry →
        IfOk result (λ done. done ≡ done_on w Replay func args.now returned) }
{
    let mut done = Done::new(alloc);
    annotations.say(&mut done, Side::Replay, func, args, returned)?;
    Ok(done)
}

//! What the tests of a step find first.

ghost use Rattle.std.specs.Prelude.{◌<◌, List, IfOk};
ghost use Rattle.marks.specs.Places.{thread_count};
ghost use Rattle.marks.specs.Marks.{Mark as Shown};
ghost use Rattle.marks.specs.Wants.{Want as Wanted};
ghost use Rattle.whole_runs.specs.World.{World};
ghost use Rattle.whole_runs.specs.Tests.{tests};
ghost use Rattle.reference_recorder_targets.specs.Annotated.{AreOf};
ghost use Rattle.reference_recorder_findings.specs.Findings.{IsFound};
ghost use Rattle.reference_recorder_ranges.specs.Pasts.{IsLowPastOf};
ghost use Rattle.reference_recorder_checks.specs.Asked.{IsAsked};

use crate::above::above;
use crate::below::below;
use marks::Side;
use recorder_threads::Want;
use reference_recorder_findings::Finding;
use reference_recorder_given::Given;
use reference_recorder_targets::Annotations;
use reference_recorder_uses::Past;
use std::alloc::{AllocError, Global};

/// What the tests of a step find first, where the code of the thread wants this on the side, with these arguments, and is given this.
/// `None` where no test fails.
///
/// `AllocError` where there is no memory.
pub fn first_found(
    alloc: Global,
    run: Past<'_>,
    annotations: Annotations<'_>,
    thread: u8,
    side: Side,
    want: Want,
    args: &[u64],
    given: Given<'_>,
) -> Result<Option<Finding>, AllocError>
    requires { thread < thread_count }
    ensures { (w : World) (p : List Shown) (wanted : Wanted) →
        IsLowPastOf w p run.entry → AreOf w annotations.entry →
        IsAsked w p thread side args.now want given.entry wanted →
        IfOk result (IsFound (tests w p thread side wanted)) }
{
    match side {
        Side::Replay => above(alloc, run, annotations, thread, want, args, given),
        Side::System => below(alloc, run, annotations, thread, want, args, given),
    }
}

//! The regions that externals prepare below the cut.

ghost use Rattle.std.specs.Prelude.{◌≡◌, ◌==◌, if◌then◌else◌, IfOk};
ghost use Rattle.marks.specs.declared.side.Side.TheVariants.{System};
ghost use Rattle.whole_runs.specs.World.{World, interface_on};
ghost use Rattle.whole_runs.specs.Below.{last_under as last_under_in, prepared_below as prepared_below_in, prepared_by as prepared_in};
ghost use Rattle.reference_recorder_marks.specs.Marks.{act_of, past};
ghost use Rattle.reference_recorder_targets.specs.Annotated.{AreOf};

use crate::annotations::Annotations;
use marks::{Range, Side};
use reference_recorder_marks::{Act, Mark};
use std::alloc::{AllocError, Global};
use stub_calls::{Done, Prepared};

/// Of regions that one call prepares the last under the key.
#[tactic(auto, using(crate::proofs::Regions::last_more))]
pub fn last_under(prepares: &[Prepared], key: u64) -> Option<Range>
    ensures { result ≡ last_under_in key prepares.now }
{
    let mut last = None;
    for prepared in prepares {
        last = region_or(prepared, key, last);
    }
    last
}

// The region, if it is one under the key, or else the one before.
fn region_or(prepared: &Prepared, key: u64, before: Option<Range>) -> Option<Range>
    ensures { result ≡ (if prepared.now.key == key then Some prepared.now.range else before) }
{
    if prepared.key == key {
        Some(prepared.range)
    } else {
        before
    }
}

/// The region that an external below the cut prepared last under the key, after these marks of a run, the oldest first. Nothing takes
/// it away.
///
/// `AllocError` where there is no memory.
pub fn prepared_below(
    alloc: Global,
    annotations: Annotations<'_>,
    marks: &[Mark],
    key: u64,
) -> Result<Option<Range>, AllocError>
    ensures { (w : World) → AreOf w annotations.entry →
        IfOk result (λ r. r ≡ prepared_below_in w key (past marks.now)) }
{
    let mut done = Done::new(alloc);
    let mut last = None;
    for mark in marks {
        let region = prepared_by(&mut done, annotations, &mark.act, key)?;
        last = region.or(last);
    }
    Ok(last)
}

// The region that is prepared under the key by a mark that does this, if one is.
fn prepared_by(
    done: &mut Done,
    annotations: Annotations<'_>,
    act: &Act,
    key: u64,
) -> Result<Option<Range>, AllocError>
    ensures { (w : World) → AreOf w annotations.entry →
        IfOk result (λ r. r ≡ prepared_in w key (act_of act.now)) }
{
    match act {
        Act::Turn => Ok(None),
        Act::Load { .. } => Ok(None),
        Act::Store { .. } => Ok(None),
        Act::Enter { .. } => Ok(None),
        Act::Leave { .. } => Ok(None),
        Act::Step { func, args, .. } => {
            prepared_at(done, annotations, *func, args.as_slice(), key)
        }
        Act::Fault { .. } => Ok(None),
        Act::Made(_) => Ok(None),
    }
}

// The same of a call of this function below the cut.
fn prepared_at(
    done: &mut Done,
    annotations: Annotations<'_>,
    func: u16,
    args: &[u64],
    key: u64,
) -> Result<Option<Range>, AllocError>
    ensures { (w : World) → AreOf w annotations.entry → IfOk result (λ r. r ≡
        last_under_in key ((interface_on w System func).prepares func args.now)) }
{
    annotations.say(done, Side::System, func, args, 0)?;
    Ok(last_under(done.prepares(), key))
}

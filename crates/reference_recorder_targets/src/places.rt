//! Where the pieces of an answer go.

ghost use Rattle.std.specs.Prelude.{◌≡◌, ◌++◌, map, IfOk};
ghost use Rattle.whole_runs.specs.World.{World};
ghost use Rattle.whole_runs.specs.Below.{To, commit_target as commit_target_in, region_under as region_under_in, target_used, targets as targets_in, target_at};
ghost use Rattle.reference_recorder_marks.specs.Marks.{past};
ghost use Rattle.reference_recorder_targets.specs.Annotated.{AreOf};
ghost use Rattle.reference_recorder_targets.specs.Places.{some_targets, target_of, targets_of};

use crate::annotations::Annotations;
use crate::prepared::prepared_below;
use marks::{Range, Side};
use reference_recorder_marks::Mark;
use reference_recorder_regions::in_use;
use std::alloc::{AllocError, Global};
use stub_calls::{Committing, Done};

/// Where a piece goes.
#[derive(Clone, Copy)]
pub enum Target {
    /// To this region.
    To(Range),
    /// The used size of a commit is negative.
    Nowhere,
    /// No region has the key.
    Missing,
}

/// Where the pieces go of a call of the function by code of the side, with these arguments and this result, after these marks of a
/// run, the oldest first: to each region that is held, and then to the one that is committed.
///
/// `AllocError` where there is no memory.
pub fn targets(
    alloc: Global,
    annotations: Annotations<'_>,
    marks: &[Mark],
    side: Side,
    func: u16,
    args: &[u64],
    returned: u64,
) -> Result<Vec<Target>, AllocError>
    ensures { (w : World) → AreOf w annotations.entry → IfOk result (λ xs.
        targets_of xs.items ≡ targets_in w side (past marks.now) func args.now returned) }
{
    let mut done = Done::new(alloc);
    annotations.say(&mut done, side, func, args, returned)?;
    let last = commit_target(alloc, annotations, marks, side, done.commit())?;
    annotations.say(&mut done, side, func, args, 0)?;
    let all = all_targets(alloc, done.outs(), last)?;
    Ok(all)
}

// The regions that are held, and the last target, if there is one.
fn all_targets(
    alloc: Global,
    outs: &[Range],
    last: Option<Target>,
) -> Result<Vec<Target>, AllocError>
    ensures { IfOk result (λ xs. targets_of xs.items ≡ map To outs.now ++ some_targets last) }
{
    let mut targets = Vec::new(alloc);
    for range in outs {
        targets.push(Target::To(*range))?;
    }
    if let Some(target) = last {
        targets.push(target)?;
    }
    Ok(targets)
}

// Where the piece goes that is committed, if one is.
fn commit_target(
    alloc: Global,
    annotations: Annotations<'_>,
    marks: &[Mark],
    side: Side,
    commit: Option<Committing>,
) -> Result<Option<Target>, AllocError>
    ensures { (w : World) → AreOf w annotations.entry →
        IfOk result (λ x. some_targets x ≡ commit_target_in w side (past marks.now) commit) }
{
    match commit {
        Some(commit) => {
            let target = target_used(alloc, annotations, marks, side, commit)?;
            Ok(Some(target))
        }
        None => Ok(None),
    }
}

// The same of this commit.
fn target_used(
    alloc: Global,
    annotations: Annotations<'_>,
    marks: &[Mark],
    side: Side,
    commit: Committing,
) -> Result<Target, AllocError>
    ensures { (w : World) → AreOf w annotations.entry → IfOk result (λ x.
        target_of x ≡ target_used w side commit.key (past marks.now) commit.used) }
{
    if commit.used.is_none() {
        return Ok(Target::Nowhere);
    }
    let region = region_under(alloc, annotations, marks, side, commit.key)?;
    Ok(target_at(region))
}

// To the region that is found.
fn target_at(region: Option<Range>) -> Target
    ensures { target_of result ≡ target_at region }
{
    match region {
        Some(region) => Target::To(region),
        None => Target::Missing,
    }
}

// The region that a commit finds under the key: the one that a Call prepared; below the cut, where there is none, one prepared there.
fn region_under(
    alloc: Global,
    annotations: Annotations<'_>,
    marks: &[Mark],
    side: Side,
    key: u64,
) -> Result<Option<Range>, AllocError>
    ensures { (w : World) → AreOf w annotations.entry →
        IfOk result (λ r. r ≡ region_under_in w side key (past marks.now)) }
{
    let above = in_use(marks, key);
    match side {
        Side::Replay => Ok(above),
        Side::System => {
            let below = prepared_below(alloc, annotations, marks, key)?;
            Ok(above.or(below))
        }
    }
}

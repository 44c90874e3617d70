//! Pieces that an external below the cut writes.

ghost use Rattle.std.specs.Prelude.{◌≡◌, List, IfOk, length};
ghost use Rattle.marks.specs.Marks.{Mark as Shown};
ghost use Rattle.replay_runs.specs.Checks.{Done};
ghost use Rattle.whole_runs.specs.World.{World};
ghost use Rattle.whole_runs.specs.Below.{To};
ghost use Rattle.whole_runs.specs.Tests.{piece_check, piece_checks};
ghost use Rattle.reference_recorder_targets.specs.Places.{target_of, targets_of};
ghost use Rattle.reference_recorder_findings.specs.Findings.{IsFound};
ghost use Rattle.reference_recorder_ranges.specs.Pasts.{IsLowPastOf};

use marks::{FaultKind, Range};
use reference_recorder_findings::Finding;
use reference_recorder_ranges::touched;
use reference_recorder_targets::Target;
use reference_recorder_uses::Past;
use run_events::Bytes;
use std::alloc::{AllocError, Global};

fn len_of(answer: &Bytes) -> u64
    ensures { result ≡ length answer.now }
{
    answer.as_slice().len() as u64
}

// What is found where the bytes are written at the front of the region.
fn written_to(
    alloc: Global,
    run: Past<'_>,
    thread: u8,
    region: Range,
    answer: &Bytes,
) -> Result<Option<Finding>, AllocError>
    ensures { (w : World) (p : List Shown) → IsLowPastOf w p run.entry → IfOk result (IsFound
        (piece_check w p thread (To region) answer.now Done)) }
{
    let len = len_of(answer);
    let capacity = region.len;
    if len > capacity {
        return Ok(Some(Finding::Fault(FaultKind::NotLive)));
    }
    let addr = region.addr;
    touched(alloc, run, thread, true, Range { addr, len })
}

// What is found where the bytes go to the target.
fn piece(
    alloc: Global,
    run: Past<'_>,
    thread: u8,
    target: Target,
    answer: &Bytes,
) -> Result<Option<Finding>, AllocError>
    ensures { (w : World) (p : List Shown) → IsLowPastOf w p run.entry → IfOk result (IsFound
        (piece_check w p thread (target_of target) answer.now Done)) }
{
    match target {
        Target::To(region) => written_to(alloc, run, thread, region, answer),
        Target::Nowhere => Ok(None),
        Target::Missing => Ok(Some(Finding::Fault(FaultKind::NotLive))),
    }
}

/// What is found where an external that code of the thread below the cut calls writes the answer's pieces, each to its target.
///
/// `AllocError` where there is no memory.
pub fn written(
    alloc: Global,
    run: Past<'_>,
    thread: u8,
    targets: &[Target],
    answers: &[Bytes],
) -> Result<Option<Finding>, AllocError>
    ensures { (w : World) (p : List Shown) → IsLowPastOf w p run.entry → IfOk result (IsFound
        (piece_checks w p thread (targets_of targets.now) answers.now)) }
{
    let count = targets.len().min(answers.len());
    for place in 0..count {
        let target = targets[place];
        let answer = &answers[place];
        if let Some(found) = piece(alloc, run, thread, target, answer)? {
            return Ok(Some(found));
        }
    }
    Ok(None)
}

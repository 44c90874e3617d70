//! Returns from below the cut.

ghost use Rattle.std.specs.Prelude.{◌≡◌, List, IfOk, length, get_or, []};
ghost use Rattle.marks.specs.Marks.{Mark as Shown};
ghost use Rattle.marks.specs.declared.side.Side.TheVariants.{Replay};
ghost use Rattle.stub_meaning.specs.Meaning.{first_of};
ghost use Rattle.whole_runs.specs.World.{World};
ghost use Rattle.whole_runs.specs.Below.{pieces_for as pieces_for_in, targets as targets_in};
ghost use Rattle.whole_runs.specs.Tests.{ret_checks};
ghost use Rattle.reference_recorder_targets.specs.Annotated.{AreOf};
ghost use Rattle.reference_recorder_findings.specs.Findings.{IsFound};
ghost use Rattle.reference_recorder_ranges.specs.Pasts.{IsLowPastOf};
ghost use Rattle.reference_recorder_crossings.specs.Parts.{brought_checks, committed_checks};

use crate::said::done_at;
use marks::{Range, Side};
use reference_recorder_findings::Finding;
use reference_recorder_marks::Piece;
use reference_recorder_ranges::{committed_size, sizes};
use reference_recorder_regions::in_use;
use reference_recorder_targets::{Annotations, pieces_for, targets};
use reference_recorder_uses::{Past, key_unused};
use run_events::Bytes;
use std::alloc::{AllocError, Global};
use stub_calls::{Committing, Done};

/// What is found where the call of the function with these arguments comes to this result, with these answers, a piece for each region.
///
/// `AllocError` where there is no memory.
pub fn returned(
    alloc: Global,
    run: Past<'_>,
    annotations: Annotations<'_>,
    func: u16,
    args: &[u64],
    value: u64,
    answers: &[Bytes],
) -> Result<Option<Finding>, AllocError>
    ensures { (w : World) (p : List Shown) → IsLowPastOf w p run.entry → AreOf w annotations.entry →
        IfOk result (IsFound (ret_checks w p func args.now value answers.now)) }
{
    let pieces = answer_pieces(alloc, run, annotations, func, args, value, answers)?;
    come_up(alloc, run, annotations, func, args, value, &pieces, answers)
}

// The pieces that come up with the result: each answer for its region.
fn answer_pieces(
    alloc: Global,
    run: Past<'_>,
    annotations: Annotations<'_>,
    func: u16,
    args: &[u64],
    value: u64,
    answers: &[Bytes],
) -> Result<Vec<Piece>, AllocError>
    ensures { (w : World) (p : List Shown) → IsLowPastOf w p run.entry → AreOf w annotations.entry →
        IfOk result (λ pieces. pieces.items ≡
        pieces_for_in (targets_in w Replay p func args.now value) answers.now) }
{
    let marks = run.marks;
    let regions = targets(alloc, annotations, marks, Side::Replay, func, args, value)?;
    pieces_for(alloc, &regions, answers)
}

// What is found where these pieces come up with the result, which are the answers.
fn come_up(
    alloc: Global,
    run: Past<'_>,
    annotations: Annotations<'_>,
    func: u16,
    args: &[u64],
    value: u64,
    pieces: &[Piece],
    answers: &[Bytes],
) -> Result<Option<Finding>, AllocError>
    ensures { (w : World) (p : List Shown) → IsLowPastOf w p run.entry → AreOf w annotations.entry →
        pieces.now ≡ pieces_for_in (targets_in w Replay p func args.now value) answers.now →
        IfOk result (IsFound (ret_checks w p func args.now value answers.now)) }
{
    let called = done_at(alloc, annotations, func, args, 0)?;
    let known = done_at(alloc, annotations, func, args, value)?;
    Ok(brought(run, pieces, answers, &called, &known))
}

// What is found where these pieces come up, the answers for the regions that the call holds and for the one that it commits, by what is
// known when it is called and when it returns.
fn brought(
    run: Past<'_>,
    pieces: &[Piece],
    answers: &[Bytes],
    called: &Done,
    known: &Done,
) -> Option<Finding>
    ensures { (w : World) (p : List Shown) → IsLowPastOf w p run.entry → IsFound
        (brought_checks w p pieces.now answers.now called.now.outs known.now.used
        (first_of known.now.commits)) result }
{
    let regions = called.outs();
    let used = known.used();
    match known.commit() {
        Some(commit) => committed(run, pieces, answers, regions, used, commit),
        None => sizes(run, pieces, answers, regions, used),
    }
}

// What is found where these pieces come up, the answers for these regions, of which so much is used, and for the one that is committed;
// its used size may be negative.
fn committed(
    run: Past<'_>,
    pieces: &[Piece],
    answers: &[Bytes],
    regions: &[Range],
    used: &[u64],
    commit: Committing,
) -> Option<Finding>
    ensures { (w : World) (p : List Shown) → IsLowPastOf w p run.entry → IsFound
        (committed_checks w p pieces.now answers.now regions.now used.now commit.key commit.used) result }
{
    match commit.used {
        Some(size) => released(run, pieces, answers, regions, used, commit.key, size),
        None => sizes(run, pieces, answers, regions, used),
    }
}

// The same where so many bytes of the region under the key are used.
fn released(
    run: Past<'_>,
    pieces: &[Piece],
    answers: &[Bytes],
    regions: &[Range],
    used: &[u64],
    key: u64,
    size: u64,
) -> Option<Finding>
    ensures { (w : World) (p : List Shown) → IsLowPastOf w p run.entry → IsFound
        (committed_checks w p pieces.now answers.now regions.now used.now key (Some size)) result }
{
    if let Some(found) = key_unused(run, key) {
        return Some(found);
    }
    if let Some(found) = sizes(run, pieces, answers, regions, used) {
        return Some(found);
    }
    let region = in_use(run.marks, key);
    let len = len_at(answers, regions.len());
    committed_size(run, pieces, len, region, size)
}

// The length of the answer at the place, 0 where there is none.
fn len_at(answers: &[Bytes], place: usize) -> u64
    ensures { result ≡ length (get_or answers.now place []) }
{
    match answers.get(place) {
        Some(answer) => answer.as_slice().len() as u64,
        None => 0,
    }
}

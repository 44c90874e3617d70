//! How much of regions is used.

ghost use Rattle.std.specs.Prelude.{◌≡◌, ◌+◌, ◌≤◌, ◌↔◌, ◌==◌, if◌then◌else◌, ℕ, true, List, map, length, slice_index, IsTrue};
ghost use Rattle.marks.specs.Marks.{Mark as Shown};
ghost use Rattle.marks.specs.Ranges.{covers};
ghost use Rattle.replay_runs.specs.Checks.{Done, commit_size_check, size_check, size_checks};
ghost use Rattle.whole_runs.specs.World.{World};
ghost use Rattle.reference_recorder_findings.specs.Findings.{IsFound};
ghost use Rattle.reference_recorder_ranges.specs.Pasts.{IsLowPastOf};
ghost use Rattle.reference_recorder_ranges.specs.Checks.{changed_by};

use marks::{BreachKind, Range};
use reference_recorder_findings::Finding;
use reference_recorder_marks::Piece;
use reference_recorder_scans::first_changed;
use reference_recorder_uses::Past;
use run_events::Bytes;

// Whether a byte of the region after so many of its bytes was changed although it was pending, with these pieces written.
fn is_changed(run: Past<'_>, pieces: &[Piece], region: Range, used: u64) -> bool
    ensures { (w : World) (p : List Shown) → IsLowPastOf w p run.entry → IsTrue result ↔ ((y : ℕ) ×
        (covers region y ≡ true) × (region.addr + used ≤ y) × (changed_by w p pieces.now y ≡ true)) }
{
    first_changed(run.placed, run.marks, pieces, region, used).is_some()
}

// The breach of a region that is too small, or was changed.
fn spoiled(region: Range) -> Finding
    ensures { result ≡ Finding.Breach BreachKind.Size region.addr None }
{
    Finding::Breach {
        kind: BreachKind::Size,
        address: region.addr,
        other: None,
    }
}

// What is found where these pieces come up, one of so many bytes for the region, of which so many are used.
fn size(run: Past<'_>, pieces: &[Piece], len: u64, region: Range, used: u64) -> Option<Finding>
    ensures { (w : World) (p : List Shown) → IsLowPastOf w p run.entry →
        IsFound (size_check (changed_by w p pieces.now) len region used Done) result }
{
    let found = spoiled(region);
    let capacity = region.len;
    if len > capacity {
        return Some(found);
    }
    if used > capacity {
        return Some(found);
    }
    if is_changed(run, pieces, region, used) {
        return Some(found);
    }
    None
}

// The length of the answer at the place, 0 where there is none.
fn len_at(answers: &[Bytes], place: usize) -> u64
    ensures { result ≡ slice_index (map length answers.now) place }
{
    match answers.get(place) {
        Some(answer) => answer.as_slice().len() as u64,
        None => 0,
    }
}

/// What is found where these pieces come up, the answers, one for each region, of which so many bytes are used.
pub fn sizes(
    run: Past<'_>,
    pieces: &[Piece],
    answers: &[Bytes],
    regions: &[Range],
    used: &[u64],
) -> Option<Finding>
    ensures { (w : World) (p : List Shown) → IsLowPastOf w p run.entry → IsFound
        (size_checks (changed_by w p pieces.now) (map length answers.now) regions.now used.now Done) result }
{
    let count = regions.len().min(used.len());
    for place in 0..count {
        let len = len_at(answers, place);
        if let Some(found) = size(run, pieces, len, regions[place], used[place]) {
            return Some(found);
        }
    }
    None
}

// How much of a region is used: nothing of NULL.
fn counted(region: Range, used: u64) -> u64
    ensures { result ≡ (if region.addr == 0 then 0 else used) }
{
    if region.addr == 0 { 0 } else { used }
}

/// What is found where these pieces come up, one of so many bytes for the region that is committed, where there is one, of which so many
/// are used, none of NULL.
pub fn committed_size(
    run: Past<'_>,
    pieces: &[Piece],
    len: u64,
    region: Option<Range>,
    used: u64,
) -> Option<Finding>
    ensures { (w : World) (p : List Shown) → IsLowPastOf w p run.entry → IsFound
        (commit_size_check (changed_by w p pieces.now) len region used Done) result }
{
    match region {
        Some(region) => {
            let bytes = counted(region, used);
            size(run, pieces, len, region, bytes)
        }
        None => None,
    }
}

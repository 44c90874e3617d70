//! The first bad one of ranges.

ghost use Rattle.std.specs.Prelude.{◌≡◌, ◌↔◌, IsTrue};
ghost use Rattle.replay_runs.specs.Rules.{SomeConstant};
ghost use Rattle.whole_runs.specs.World.{World};
ghost use Rattle.reference_recorder_marks.specs.Marks.{past};
ghost use Rattle.reference_recorder_scans.specs.Found.{IsLow};
ghost use Rattle.reference_recorder_faults.specs.Ranges.{HasDead, IsPlaceOfBad};

use marks::Range;
use memory_map::Placed;
use reference_recorder_findings::read_only;
use reference_recorder_marks::Mark;
use reference_recorder_scans::first_dead;

// The place of the first one of the ranges that has a dead byte after these marks, if one has.
pub(crate) fn first_dead_range(placed: &Placed, marks: &[Mark], ranges: &[Range]) -> Option<usize>
    ensures { (w : World) → w.laid.placed ≡ placed.now → IsLow w (past marks.now) →
        IsPlaceOfBad (HasDead w (past marks.now)) ranges.now result }
{
    for (place, range) in ranges.iter().enumerate() {
        if has_dead(placed, marks, *range) {
            return Some(place);
        }
    }
    None
}

fn has_dead(placed: &Placed, marks: &[Mark], range: Range) -> bool
    ensures { (w : World) → w.laid.placed ≡ placed.now → IsLow w (past marks.now) →
        IsTrue result ↔ HasDead w (past marks.now) range }
{
    first_dead(placed, marks, range).is_some()
}

// The place of the first one of the ranges that has a constant, if one has.
pub(crate) fn first_constant(ranges: &[Range]) -> Option<usize>
    ensures { IsPlaceOfBad SomeConstant ranges.now result }
{
    for (place, range) in ranges.iter().enumerate() {
        if has_constant(*range) {
            return Some(place);
        }
    }
    None
}

fn has_constant(range: Range) -> bool
    ensures { IsTrue result ↔ SomeConstant range }
{
    read_only(true, range).is_some()
}

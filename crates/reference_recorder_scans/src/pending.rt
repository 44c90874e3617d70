//! The first byte of a range that is pending.

ghost use Rattle.std.specs.Prelude.{◌≡◌, ◌↔◌, ◌⊎◌, true, IsTrue};
ghost use Rattle.marks.specs.Ranges.{IsFirstIn, any_range};
ghost use Rattle.marks.specs.Bytes.{IsHeld};
ghost use Rattle.replay_runs.specs.Runs.{byte};
ghost use Rattle.whole_runs.specs.World.{World, begin};
ghost use Rattle.whole_runs.specs.Sides.{seen};
ghost use Rattle.reference_recorder_marks.specs.Marks.{past};
ghost use Rattle.reference_recorder_memory.specs.Cells.{cell_of};
ghost use Rattle.reference_recorder_scans.specs.Scans.{is_held};

use marks::Range;
use memory_map::Placed;
use reference_recorder_marks::{Mark, any_range};
use reference_recorder_memory::{Cell, byte};

/// The first byte of the range that is pending in a replay, after these marks of a run, the oldest first, or lies in one of these other
/// ranges. Every byte of the range may be gone through: it is asked for ranges that live.
pub fn first_pending(placed: &Placed, marks: &[Mark], more: &[Range], range: Range) -> Option<u64>
    ensures { (w : World) → w.laid.placed ≡ placed.now → IsFirstIn range
        (λ x. IsHeld (byte (begin w) x (seen (past marks.now))).cell ⊎ (any_range more.now x ≡ true)) result }
{
    for offset in 0..range.len {
        let addr = range.addr.checked_add(offset)?;
        if is_pending_at(placed, marks, more, addr) {
            return Some(addr);
        }
    }
    None
}

fn is_pending_at(placed: &Placed, marks: &[Mark], more: &[Range], addr: u64) -> bool
    ensures { (w : World) → w.laid.placed ≡ placed.now → IsTrue result ↔
        (IsHeld (byte (begin w) addr (seen (past marks.now))).cell ⊎ (any_range more.now addr ≡ true)) }
{
    let held = is_held_at(placed, marks, addr);
    held || any_range(more, addr)
}

fn is_held_at(placed: &Placed, marks: &[Mark], addr: u64) -> bool
    ensures { (w : World) → w.laid.placed ≡ placed.now → IsTrue result ↔
        IsHeld (byte (begin w) addr (seen (past marks.now))).cell }
{
    is_held(byte(placed, marks, addr).cell)
}

fn is_held(cell: Cell) -> bool
    ensures { result ≡ is_held (cell_of cell) }
{
    match cell {
        Cell::Dead => false,
        Cell::Live(_) => false,
        Cell::Held(_) => true,
    }
}

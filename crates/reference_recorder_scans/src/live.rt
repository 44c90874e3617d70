//! The first byte of a range that lies in no live object.

ghost use Rattle.std.specs.Prelude.{◌≡◌, ◌↔◌, IsTrue, None as Nothing};
ghost use Rattle.marks.specs.Ranges.{IsFirstIn};
ghost use Rattle.marks.specs.Bytes.{Dead};
ghost use Rattle.replay_runs.specs.Runs.{byte};
ghost use Rattle.whole_runs.specs.World.{World, begin};
ghost use Rattle.whole_runs.specs.Sides.{seen};
ghost use Rattle.whole_runs.specs.Memory.{real};
ghost use Rattle.reference_recorder_marks.specs.Marks.{past};
ghost use Rattle.reference_recorder_memory.specs.Cells.{cell_of};
ghost use Rattle.reference_recorder_scans.specs.Scans.{is_dead};

use marks::Range;
use memory_map::Placed;
use reference_recorder_marks::Mark;
use reference_recorder_memory::{Cell, byte, real};

/// The first byte of the range that is dead in a replay, after these marks of a run, the oldest first. In a run all bytes from 2^31 on
/// are, so that no longer range is gone through than memory is.
pub fn first_dead(placed: &Placed, marks: &[Mark], range: Range) -> Option<u64>
    ensures { (w : World) → w.laid.placed ≡ placed.now →
        IsFirstIn range (λ x. (byte (begin w) x (seen (past marks.now))).cell ≡ Dead) result }
{
    for offset in 0..range.len {
        let addr = range.addr.checked_add(offset)?;
        if is_dead_at(placed, marks, addr) {
            return Some(addr);
        }
    }
    None
}

fn is_dead_at(placed: &Placed, marks: &[Mark], addr: u64) -> bool
    ensures { (w : World) → w.laid.placed ≡ placed.now → IsTrue result ↔
        ((byte (begin w) addr (seen (past marks.now))).cell ≡ Dead) }
{
    is_dead(byte(placed, marks, addr).cell)
}

fn is_dead(cell: Cell) -> bool
    ensures { result ≡ is_dead (cell_of cell) }
{
    match cell {
        Cell::Dead => true,
        Cell::Live(_) => false,
        Cell::Held(_) => false,
    }
}

/// The first byte of the range that no live object has for code of both sides.
pub fn first_lost(placed: &Placed, marks: &[Mark], range: Range) -> Option<u64>
    ensures { (w : World) → w.laid.placed ≡ placed.now →
        IsFirstIn range (λ x. real w (past marks.now) x ≡ Nothing) result }
{
    for offset in 0..range.len {
        let addr = range.addr.checked_add(offset)?;
        if is_lost_at(placed, marks, addr) {
            return Some(addr);
        }
    }
    None
}

fn is_lost_at(placed: &Placed, marks: &[Mark], addr: u64) -> bool
    ensures { (w : World) → w.laid.placed ≡ placed.now →
        IsTrue result ↔ (real w (past marks.now) addr ≡ Nothing) }
{
    real(placed, marks, addr).is_none()
}

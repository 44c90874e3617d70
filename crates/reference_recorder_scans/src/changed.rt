//! The first byte of a region that was changed where it was not to be.

ghost use Rattle.std.specs.Prelude.{◌≡◌, ◌+◌, ◌≤◌, true};
ghost use Rattle.marks.specs.Ranges.{IsFirstIn};
ghost use Rattle.marks.specs.Bytes.{Held};
ghost use Rattle.replay_runs.specs.Runs.{byte};
ghost use Rattle.whole_runs.specs.World.{World, begin};
ghost use Rattle.whole_runs.specs.Sides.{seen};
ghost use Rattle.whole_runs.specs.Memory.{filled, real};
ghost use Rattle.whole_runs.specs.Tests.{is_changed as is_changed_in};
ghost use Rattle.reference_recorder_marks.specs.Marks.{past};
ghost use Rattle.reference_recorder_memory.specs.Cells.{cell_of};

use marks::Range;
use memory_map::Placed;
use reference_recorder_marks::{Mark, Piece};
use reference_recorder_memory::{Cell, byte, filled, real};

/// The first byte of the region after so many of its bytes that is pending after these marks of a run, the oldest first, and hasn't the
/// value that it had when it was held once these pieces are written.
pub fn first_changed(
    placed: &Placed,
    marks: &[Mark],
    pieces: &[Piece],
    region: Range,
    used: u64,
) -> Option<u64>
    ensures { (w : World) → w.laid.placed ≡ placed.now → IsFirstIn region
        (λ x. (region.addr + used ≤ x) × (is_changed_in (byte (begin w) x (seen (past marks.now))).cell
        (filled pieces.now x (real w (past marks.now) x)) ≡ true)) result }
{
    for offset in used..region.len {
        let addr = region.addr.checked_add(offset)?;
        if is_changed_at(placed, marks, pieces, addr) {
            return Some(addr);
        }
    }
    None
}

fn is_changed_at(placed: &Placed, marks: &[Mark], pieces: &[Piece], addr: u64) -> bool
    ensures { (w : World) → w.laid.placed ≡ placed.now →
        result ≡ is_changed_in (byte (begin w) addr (seen (past marks.now))).cell
        (filled pieces.now addr (real w (past marks.now) addr)) }
{
    let now = filled(pieces, addr, real(placed, marks, addr));
    is_changed(byte(placed, marks, addr).cell, now)
}

// Whether a byte is pending, and isn't what it was when it was held.
fn is_changed(cell: Cell, now: Option<u8>) -> bool
    ensures { result ≡ is_changed_in (cell_of cell) now }
{
    match cell {
        Cell::Dead => false,
        Cell::Live(_) => false,
        Cell::Held(held) => is_other(now, held),
    }
}

// Whether a byte has another value than this, or none.
fn is_other(now: Option<u8>, held: u8) -> bool
    ensures { result ≡ is_changed_in (Held held) now }
{
    match now {
        Some(value) => value != held,
        None => true,
    }
}

//! Which bytes above the cut code below it may touch.

ghost use Rattle.std.specs.Prelude.{◌≡◌, ◌≢◌, ◌↔◌, IfOk, IsTrue};
ghost use Rattle.marks.specs.Places.{is_replay};
ghost use Rattle.marks.specs.Bytes.{Dead};
ghost use Rattle.replay_runs.specs.Runs.{byte};
ghost use Rattle.whole_runs.specs.World.{World, begin};
ghost use Rattle.whole_runs.specs.Sides.{seen};
ghost use Rattle.whole_runs.specs.Below.{IsForbidden, MayTouch};
ghost use Rattle.reference_recorder_marks.specs.Marks.{past};
ghost use Rattle.reference_recorder_memory.specs.Cells.{cell_of};
ghost use Rattle.reference_recorder_rights.specs.Rights.{is_alive};

use crate::down::is_handed_down;
use memory_map::Placed;
use reference_recorder_marks::Mark;
use reference_recorder_memory::{Cell, byte};
use std::alloc::{AllocError, Global};

/// Whether the byte at the address lies above the cut, and code of the thread below the cut may not touch it, to write it or
/// only to read it: it is in no live object, or isn't handed down to the thread. The marks stand with the oldest first.
pub fn is_forbidden(
    alloc: Global,
    placed: &Placed,
    marks: &[Mark],
    thread: u8,
    write: bool,
    addr: u64,
) -> Result<bool, AllocError>
    ensures { (w : World) → w.laid.placed ≡ placed.now → IfOk result (λ b. IsTrue b ↔
        IsForbidden w (past marks.now) thread write addr) }
{
    let may = may_touch(alloc, placed, marks, thread, write, addr)?;
    if is_replay(addr) { Ok(!may) } else { Ok(false) }
}

/// Whether the byte at the address lives, and is handed down to code of the thread below the cut, to be written or only read.
pub fn may_touch(
    alloc: Global,
    placed: &Placed,
    marks: &[Mark],
    thread: u8,
    write: bool,
    addr: u64,
) -> Result<bool, AllocError>
    ensures { (w : World) → w.laid.placed ≡ placed.now → IfOk result (λ b. IsTrue b ↔
        MayTouch w (past marks.now) thread write addr) }
{
    let down = is_handed_down(alloc, marks, thread, write, addr)?;
    if is_there(placed, marks, addr) {
        Ok(down)
    } else {
        Ok(false)
    }
}

// Whether the byte lies in a live object, pending or not.
fn is_there(placed: &Placed, marks: &[Mark], addr: u64) -> bool
    ensures { (w : World) → w.laid.placed ≡ placed.now → IsTrue result ↔
        ((byte (begin w) addr (seen (past marks.now))).cell ≢ Dead) }
{
    is_alive(byte(placed, marks, addr).cell)
}

fn is_alive(cell: Cell) -> bool
    ensures { result ≡ is_alive (cell_of cell) }
{
    match cell {
        Cell::Dead => false,
        Cell::Live(_) => true,
        Cell::Held(_) => true,
    }
}

/// Whether the address is one of memory above the cut.
pub fn is_replay(addr: u64) -> bool
    ensures { result ≡ is_replay addr }
{
    addr >= 0x1000_0000 && addr < 0x4000_0000
}

//! One byte after a list of marks: as a replay has it, and as code of both sides does.

ghost use Rattle.std.specs.Prelude.{◌≡◌};
ghost use Rattle.replay_runs.specs.Runs.{byte};
ghost use Rattle.whole_runs.specs.World.{World, begin};
ghost use Rattle.whole_runs.specs.Sides.{seen};
ghost use Rattle.whole_runs.specs.Memory.{real};
ghost use Rattle.reference_recorder_marks.specs.Marks.{act_of, mark_of, past};
ghost use Rattle.reference_recorder_memory.specs.Cells.{byte_of, byte_step, cell_of, left_at};

use crate::cells::{Byte, Cell, changes, filled, leaves, value_of, written};
use crate::placed::{first_byte, placed_at};
use memory_map::Placed;
use reference_recorder_marks::{Act, Mark, any_range, is_above, within};

/// The byte at an address as a replay has it, after the marks, which stand with the oldest first.
pub fn byte(placed: &Placed, marks: &[Mark], addr: u64) -> Byte
    ensures { (w : World) → w.laid.placed ≡ placed.now →
        byte_of result ≡ byte (begin w) addr (seen (past marks.now)) }
{
    let mut byte = first_byte(placed, addr);
    for mark in marks {
        byte = byte_after(mark, addr, byte);
    }
    byte
}

// What a mark leaves of it: one below the cut leaves it as it was.
fn byte_after(mark: &Mark, addr: u64, byte: Byte) -> Byte
    ensures { byte_of result ≡ byte_step addr (mark_of mark.now) (byte_of byte) }
{
    if is_above(mark) {
        leaves(&mark.act, addr, byte)
    } else {
        byte
    }
}

/// The byte at an address for code of both sides, after the marks; `None` where no live object has it.
pub fn real(placed: &Placed, marks: &[Mark], addr: u64) -> Option<u8>
    ensures { (w : World) → w.laid.placed ≡ placed.now → result ≡ real w (past marks.now) addr }
{
    let mut byte = first_byte(placed, addr);
    let mut value = placed_at(placed, addr);
    for mark in marks {
        byte = byte_after(mark, addr, byte);
        value = left_at(byte.cell, addr, &mark.act, value);
    }
    value
}

// What a mark leaves of it, where a replay has this there after the mark.
fn left_at(seen: Cell, addr: u64, act: &Act, value: Option<u8>) -> Option<u8>
    ensures { result ≡ left_at (cell_of seen) addr (act_of act.now) value }
{
    match act {
        Act::Turn => value,
        Act::Load { .. } => value,
        Act::Store { at, bytes, .. } => written(*at, bytes.as_slice(), addr, value),
        Act::Enter { at, bytes, .. } => written(*at, bytes.as_slice(), addr, value),
        Act::Leave { at, size } => {
            if within(*at, *size, addr) {
                None
            } else {
                value
            }
        }
        Act::Step { pieces, freed, .. } => {
            if any_range(freed.as_slice(), addr) {
                None
            } else {
                filled(pieces.as_slice(), addr, value)
            }
        }
        Act::Fault { .. } => value,
        Act::Made(event) => {
            if changes(&event.kind, addr) {
                value_of(seen)
            } else {
                value
            }
        }
    }
}

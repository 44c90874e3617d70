//! The rows of memory.

ghost use Rattle.std.specs.Prelude.{◌≡◌, ◌++◌, ◌<◌, ◌%◌, ◌^◌, IfOk, OnOk, flat_map};
ghost use Rattle.memory_map.specs.declared.areas.TheConstants.{REPLAY_MEMORY};
ghost use Rattle.call_inspector.specs.MemoryText.{cell_text, row_text};
ghost use Rattle.call_inspector.specs.Parts.{PutsRow};
ghost use Rattle.call_inspector.specs.Rows.{IsNextRow};

use crate::values::{hex_pair, put_bytes};
use memory_map::REPLAY_MEMORY;
use space_memory::{Cell, Spaces};
use std::alloc::AllocError;

/// Adds a byte, after a space.
fn put_cell(text: &mut Vec<u8>, cell: Cell) -> Result<(), AllocError>
    ensures { OnOk result (text.new.items ≡ text.old.items ++ cell_text cell) }
{
    match cell {
        Cell::Dead => text.extend_from_slice(b" .."),
        Cell::Pending => text.extend_from_slice(b" --"),
        Cell::Byte(byte) => {
            let [high, low] = hex_pair(byte);
            text.extend_from_slice(&[b' ', high, low])
        }
    }
}

/// Adds bytes, each after a space.
fn put_cells(text: &mut Vec<u8>, cells: &[Cell]) -> Result<(), AllocError>
    ensures { OnOk result (text.new.items ≡ text.old.items ++ flat_map cell_text cells.now) }
{
    for cell in cells {
        put_cell(text, *cell)?;
    }
    Ok(())
}

/// Adds the address of a row and its bytes.
fn put_row(text: &mut Vec<u8>, addr: u64, cells: &[Cell]) -> Result<(), AllocError>
    requires { addr < 2 ^ 32 }
    ensures { OnOk result (text.new.items ≡ text.old.items ++ row_text addr cells.now) }
{
    put_bytes(text, &(addr as u32).to_be_bytes())?;
    put_cells(text, cells)
}

/// The first row above the cut, from an address on, that has a live byte.
fn next_row(memory: &Spaces, from: u64) -> Option<u64>
    requires { from % 16 ≡ 0 }
    ensures { IsNextRow memory.now from result }
{
    let row = memory.live_row(from)?;
    if row < REPLAY_MEMORY.addr + REPLAY_MEMORY.len {
        Some(row)
    } else {
        None
    }
}

/// Adds the line of the first row above the cut, from this one on, that has a live byte, and tells which row comes after it; `None`
/// where none has. Rows are counted from the first above the cut.
pub fn put_row_from(
    text: &mut Vec<u8>,
    memory: &Spaces,
    row: u32,
) -> Result<Option<u32>, AllocError>
    ensures { IfOk result (PutsRow memory.now text.old.items row text.new.items) }
{
    let from = REPLAY_MEMORY.addr + 16 * u64::from(row);
    let Some(addr) = next_row(memory, from) else {
        return Ok(None);
    };
    put_row(text, addr, &memory.cells(addr))?;
    text.push(b'\n')?;
    let next = (addr - REPLAY_MEMORY.addr) / 16 + 1;
    Ok(Some(next as u32))
}

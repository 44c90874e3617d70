//! The bytes of globals and strings before a run.

ghost use Rattle.std.specs.Prelude.{◌≡◌, ◌-◌, Some, None, if◌then◌else◌, slice_index};
ghost use Rattle.marks.specs.Ranges.{covers};
ghost use Rattle.space_memory.specs.Objects.{byte_of, object_range};
ghost use Rattle.space_memory_laws.specs.Shown.{cell_of as shown_cell};
ghost use Rattle.space_memory_laws.specs.Starts.{placed_byte};
ghost use Rattle.reference_recorder_memory.specs.Cells.{byte_of as shown_byte, cell_of};

use crate::cells::{Byte, Cell};
use memory_map::{Place, Placed};

// The byte that objects give the address: that of the one that has it, and the given one where none does.
fn byte_of(places: &[Place], addr: u64, byte: Option<u8>) -> Option<u8>
    ensures { result ≡ byte_of places.now addr byte }
{
    let mut found = byte;
    for place in places {
        found = byte_over(place, addr, found);
    }
    found
}

fn byte_over(place: &Place, addr: u64, byte: Option<u8>) -> Option<u8>
    ensures { result ≡ (if covers (object_range place.now) addr
        then Some (slice_index place.now.init (addr - place.now.addr)) else byte) }
{
    let bytes = place.init.as_slice();
    if addr >= place.addr && addr - place.addr < bytes.len() as u64 {
        Some(bytes[(addr - place.addr) as usize])
    } else {
        byte
    }
}

/// The byte of a global or string; `None` where no object lies.
pub fn placed_at(placed: &Placed, addr: u64) -> Option<u8>
    ensures { result ≡ byte_of placed.now.strings addr (byte_of placed.now.globals addr None) }
{
    let byte = byte_of(placed.globals.as_slice(), addr, None);
    byte_of(placed.strings.as_slice(), addr, byte)
}

/// The same as a byte of a run that has made no mark.
pub(crate) fn first_byte(placed: &Placed, addr: u64) -> Byte
    ensures { shown_byte result ≡ placed_byte placed.now addr }
{
    Byte {
        cell: first_cell(placed_at(placed, addr)),
        block: 0,
    }
}

fn first_cell(byte: Option<u8>) -> Cell
    ensures { cell_of result ≡ shown_cell byte None }
{
    match byte {
        Some(value) => Cell::Live(value),
        None => Cell::Dead,
    }
}

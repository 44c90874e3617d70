//! What marks leave of one byte.

ghost use Rattle.std.specs.Prelude.{◌≡◌, ◌++◌, if◌then◌else◌, length};
ghost use Rattle.marks.specs.Marks.{released};
ghost use Rattle.marks.specs.Ranges.{byte_at, covers, within};
ghost use Rattle.marks.specs.Bytes.{Dead, Live, block_after, cell_after, event_block, event_leaves, give, give_any, hold, leaves, release};
ghost use Rattle.whole_runs.specs.Memory.{changes, filled, value_of, written};
ghost use Rattle.reference_recorder_marks.specs.Marks.{act_of, commit_of, kind_of};
ghost use Rattle.reference_recorder_memory.specs.Cells.{byte_of, cell_of};

use reference_recorder_marks::{
    Act, Commit, EventKind, Piece, any_piece, any_prepared, any_range, byte_at, granted,
    is_brought, within,
};

/// A byte in no live object; or live with this value; or live and pending, with the value that it had when it was held.
#[derive(Clone, Copy)]
pub enum Cell {
    Dead,
    Live(u8),
    Held(u8),
}

/// A byte of memory, and the size of the live block of the pool that begins there, or 0.
#[derive(Clone, Copy)]
pub struct Byte {
    pub cell: Cell,
    pub block: u64,
}

/// What a mark leaves of the byte at an address.
pub fn leaves(act: &Act, addr: u64, byte: Byte) -> Byte
    ensures { byte_of result ≡ leaves (act_of act.now) addr (byte_of byte) }
{
    Byte {
        cell: cell_after(act, addr, byte.cell),
        block: block_after(act, addr, byte.block),
    }
}

fn cell_after(act: &Act, addr: u64, cell: Cell) -> Cell
    ensures { cell_of result ≡ cell_after (act_of act.now) addr (cell_of cell) }
{
    match act {
        Act::Turn => cell,
        Act::Load { .. } => cell,
        Act::Store { at, bytes, .. } => stored(*at, bytes.as_slice(), addr, cell),
        Act::Enter { at, bytes, .. } => stored(*at, bytes.as_slice(), addr, cell),
        Act::Leave { at, size } => freed(*at, *size, addr, cell),
        Act::Step { .. } => cell,
        Act::Fault { .. } => cell,
        Act::Made(event) => event_leaves(&event.kind, addr, cell),
    }
}

fn stored(at: u64, bytes: &[u8], addr: u64, cell: Cell) -> Cell
    ensures { cell_of result ≡ (if within at (length bytes.now) addr
        then Live (byte_at at bytes.now addr) else cell_of cell) }
{
    if within(at, bytes.len() as u64, addr) {
        Cell::Live(byte_at(at, bytes, addr))
    } else {
        cell
    }
}

fn freed(at: u64, size: u64, addr: u64, cell: Cell) -> Cell
    ensures { cell_of result ≡ (if within at size addr then Dead else cell_of cell) }
{
    if within(at, size, addr) {
        Cell::Dead
    } else {
        cell
    }
}

fn event_leaves(kind: &EventKind, addr: u64, cell: Cell) -> Cell
    ensures { cell_of result ≡ event_leaves (kind_of kind.now) addr (cell_of cell) }
{
    match kind {
        EventKind::Call { outs, prepared, .. } => {
            if any_range(outs.as_slice(), addr) || any_prepared(prepared.as_slice(), addr) {
                hold(cell)
            } else {
                cell
            }
        }
        EventKind::Ret { outs, commit, .. } => brought(outs.as_slice(), commit, addr, cell),
        EventKind::Up { .. } => cell,
        EventKind::UpRet { .. } => cell,
        EventKind::Alloc { at, size } => cleared(*at, granted(*at, *size), addr, cell),
        EventKind::Free { at, size } => freed(*at, *size, addr, cell),
        EventKind::Stop { .. } => cell,
    }
}

fn cleared(at: u64, size: u64, addr: u64, cell: Cell) -> Cell
    ensures { cell_of result ≡ (if within at size addr then Live 0 else cell_of cell) }
{
    if within(at, size, addr) {
        Cell::Live(0)
    } else {
        cell
    }
}

// What the pieces that a Ret brings up leave, and the region that it releases.
fn brought(outs: &[Piece], commit: &Commit, addr: u64, cell: Cell) -> Cell
    ensures { cell_of result ≡ give_any (outs.now ++ released (commit_of commit.now)) addr (cell_of cell) }
{
    let in_outs = any_piece(outs, addr);
    if in_outs {
        give_any(outs, addr, cell)
    } else {
        give_released(commit, addr, cell)
    }
}

fn give_released(commit: &Commit, addr: u64, cell: Cell) -> Cell
    ensures { cell_of result ≡ give_any (released (commit_of commit.now)) addr (cell_of cell) }
{
    match commit {
        Commit::NoRegion => cell,
        Commit::Withheld => cell,
        Commit::Released { region, .. } => give_over(region, addr, cell),
    }
}

fn give_any(pieces: &[Piece], addr: u64, cell: Cell) -> Cell
    ensures { cell_of result ≡ give_any pieces.now addr (cell_of cell) }
{
    for piece in pieces {
        if covers(piece, addr) {
            return give(piece, addr, cell);
        }
    }
    cell
}

fn give_over(piece: &Piece, addr: u64, cell: Cell) -> Cell
    ensures { cell_of result ≡ (if covers piece.now.range addr then give piece.now addr (cell_of cell)
        else cell_of cell) }
{
    if covers(piece, addr) {
        give(piece, addr, cell)
    } else {
        cell
    }
}

fn covers(piece: &Piece, addr: u64) -> bool
    ensures { result ≡ covers piece.now.range addr }
{
    piece.range.has(addr)
}

// What a piece leaves of a byte of its range.
fn give(piece: &Piece, addr: u64, cell: Cell) -> Cell
    ensures { cell_of result ≡ give piece.now addr (cell_of cell) }
{
    let bytes = piece.bytes.as_slice();
    if u128::from(addr) < u128::from(piece.range.addr) + bytes.len() as u128 {
        Cell::Live(byte_at(piece.range.addr, bytes, addr))
    } else {
        release(cell)
    }
}

fn hold(cell: Cell) -> Cell
    ensures { cell_of result ≡ hold (cell_of cell) }
{
    match cell {
        Cell::Dead => Cell::Dead,
        Cell::Live(value) => Cell::Held(value),
        Cell::Held(value) => Cell::Held(value),
    }
}

fn release(cell: Cell) -> Cell
    ensures { cell_of result ≡ release (cell_of cell) }
{
    match cell {
        Cell::Dead => Cell::Dead,
        Cell::Live(value) => Cell::Live(value),
        Cell::Held(value) => Cell::Live(value),
    }
}

fn block_after(act: &Act, addr: u64, block: u64) -> u64
    ensures { result ≡ block_after (act_of act.now) addr block }
{
    match act {
        Act::Turn => block,
        Act::Load { .. } => block,
        Act::Store { .. } => block,
        Act::Enter { .. } => block,
        Act::Leave { .. } => block,
        Act::Step { .. } => block,
        Act::Fault { .. } => block,
        Act::Made(event) => event_block(&event.kind, addr, block),
    }
}

fn event_block(kind: &EventKind, addr: u64, block: u64) -> u64
    ensures { result ≡ event_block (kind_of kind.now) addr block }
{
    match kind {
        EventKind::Call { .. } => block,
        EventKind::Ret { .. } => block,
        EventKind::Up { .. } => block,
        EventKind::UpRet { .. } => block,
        EventKind::Alloc { at, size } => {
            if !within(*at, granted(*at, *size), addr) {
                block
            } else if addr == *at {
                *size
            } else {
                0
            }
        }
        EventKind::Free { at, size } => { if within(*at, *size, addr) { 0 } else { block } }
        EventKind::Stop { .. } => block,
    }
}

// The value of a byte that is there, pending or not.
pub(crate) fn value_of(cell: Cell) -> Option<u8>
    ensures { result ≡ value_of (cell_of cell) }
{
    match cell {
        Cell::Dead => None,
        Cell::Live(value) => Some(value),
        Cell::Held(value) => Some(value),
    }
}

// Whether an event changes the byte at an address for code of both sides.
pub(crate) fn changes(kind: &EventKind, addr: u64) -> bool
    ensures { result ≡ changes (kind_of kind.now) addr }
{
    match kind {
        EventKind::Call { .. } => false,
        EventKind::Ret { outs, commit, .. } => is_brought(outs.as_slice(), commit, addr),
        EventKind::Up { .. } => false,
        EventKind::UpRet { .. } => false,
        EventKind::Alloc { at, size } => within(*at, granted(*at, *size), addr),
        EventKind::Free { at, size } => within(*at, *size, addr),
        EventKind::Stop { .. } => false,
    }
}

// The byte at an address after bytes are written from another one on.
pub(crate) fn written(at: u64, bytes: &[u8], addr: u64, value: Option<u8>) -> Option<u8>
    ensures { result ≡ written at bytes.now addr value }
{
    if within(at, bytes.len() as u64, addr) {
        Some(byte_at(at, bytes, addr))
    } else {
        value
    }
}

/// The byte at an address after pieces are written, one after the other, each at the front of its range and no further than
/// that goes.
pub fn filled(pieces: &[Piece], addr: u64, value: Option<u8>) -> Option<u8>
    ensures { result ≡ filled pieces.now addr value }
{
    let mut now = value;
    for piece in pieces {
        now = filled_by(piece, addr, now);
    }
    now
}

fn filled_by(piece: &Piece, addr: u64, value: Option<u8>) -> Option<u8>
    ensures { result ≡ (if covers piece.now.range addr
        then written piece.now.range.addr piece.now.bytes addr value else value) }
{
    if covers(piece, addr) {
        written(piece.range.addr, piece.bytes.as_slice(), addr, value)
    } else {
        value
    }
}

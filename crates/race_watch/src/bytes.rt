//! Which bytes have cells: those of the areas that replay code may write, one area's after another's.

ghost use Rattle.std.specs.Prelude.{◌≡◌, ◌+◌, ◌-◌, ◌%◌, ◌<◌, ◌≤◌, IfSome, IsTrue};
ghost use Rattle.race_watch.specs.Cells.{cell_of, IsPart, IsFew, IsCommon};

use memory_map::{
    GLOBALS_SIZE, POOL_SIZE, REPLAY_GLOBALS, REPLAY_POOL, REPLAY_STACKS, Range, STACK_SIZE,
};

/// Some bytes of one area, from the first to before the last, and the number of the first one's cell.
#[derive(Clone, Copy)]
pub struct Bytes {
    pub from: u64,
    pub to: u64,
    pub cell: u32,
}

/// The globals of replay code.
pub const GLOBALS: Bytes = Bytes {
    from: 0x1000_0000,
    to: 0x1010_0000,
    cell: 0,
};

/// Its stacks.
pub const STACKS: Bytes = Bytes {
    from: 0x2000_0000,
    to: 0x2020_0000,
    cell: 0x10_0000,
};

/// Its pool.
pub const POOL: Bytes = Bytes {
    from: 0x3000_0000,
    to: 0x3010_0000,
    cell: 0x30_0000,
};

const _: () = prove!(GLOBALS.from == REPLAY_GLOBALS && GLOBALS.to == REPLAY_GLOBALS + GLOBALS_SIZE);

const _: () = prove!(STACKS.from == REPLAY_STACKS && STACKS.to == REPLAY_STACKS + 32 * STACK_SIZE);

const _: () = prove!(POOL.from == REPLAY_POOL && POOL.to == REPLAY_POOL + POOL_SIZE);

/// The bytes of a range that lie in an area.
pub fn common(range: Range, area: Bytes) -> Option<Bytes>
    requires part { IsPart area }
    requires small { area.to ≤ 0x4000_0000 }
    ensures { IsCommon range area result }
{
    let from = range.addr.max(area.from);
    if from - range.addr >= range.len || from >= area.to {
        return None;
    }
    let to = if range.len < area.to - range.addr.min(area.to) {
        range.addr + range.len
    } else {
        area.to
    };
    Some(Bytes {
        from,
        to,
        cell: area.cell + (from - area.from) as u32,
    })
}

/// The bytes of a range all of which lie in one area.
#[inline(always)]
pub fn whole(range: Range) -> Option<Bytes>
    ensures { IfSome result (λ b. IsPart b × (b.from ≡ range.addr) × (b.to ≡ range.addr + range.len)) }
{
    let area = if range.addr < STACKS.from {
        GLOBALS
    } else if range.addr < POOL.from {
        STACKS
    } else {
        POOL
    };
    if range.addr < area.from || range.addr > area.to || range.len > area.to - range.addr {
        return None;
    }
    Some(Bytes {
        from: range.addr,
        to: range.addr + range.len,
        cell: area.cell + (range.addr - area.from) as u32,
    })
}

/// The number of a byte's cell.
#[inline(always)]
fn cell_at(addr: u64) -> Option<u32>
    ensures { result ≡ cell_of addr }
{
    let in_stacks = addr.wrapping_sub(STACKS.from);
    if in_stacks < STACKS.to - STACKS.from {
        return Some(STACKS.cell + in_stacks as u32);
    }
    let in_globals = addr.wrapping_sub(GLOBALS.from);
    if in_globals < GLOBALS.to - GLOBALS.from {
        return Some(GLOBALS.cell + in_globals as u32);
    }
    let in_pool = addr.wrapping_sub(POOL.from);
    if in_pool < POOL.to - POOL.from {
        return Some(POOL.cell + in_pool as u32);
    }
    None
}

/// Whether the range has a few bytes, of which none lies past the eight in a row that the first is one of.
#[inline(always)]
pub fn is_few(range: Range) -> bool
    ensures some { IsTrue result → 1 ≤ range.len }
    ensures few { IsTrue result → range.addr % 8 + range.len ≤ 8 }
{
    range.len.wrapping_sub(1) <= 7 - range.addr % 8
}

/// The bytes of such a range, where they lie in an area: it has all eight of them, or none.
#[inline(always)]
pub fn few(range: Range) -> Option<Bytes>
    ensures part { IfSome result (λ b. IsPart b × (b.from ≡ range.addr) × (b.to ≡ range.addr + range.len)) }
    ensures few { IfSome result IsFew }
{
    if !is_few(range) {
        return None;
    }
    let cell = cell_at(range.addr)?;
    Some(Bytes {
        from: range.addr,
        to: range.addr + range.len,
        cell,
    })
}

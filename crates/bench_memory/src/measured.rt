//! What accesses of a kind make.

ghost use Rattle.std.specs.Prelude.{◌≡◌, ◌<◌, ◌^◌, IfOk, length};
ghost use Rattle.memory_map.specs.declared.areas.TheConstants.{THREADS};

use crate::kind::AccessKind;
use crate::pattern::{Pattern, SIZE};
use crate::{plain, spaces};
use anyhow::{Context, bail};
use marks::Side;
use memory_map::{Bytes8, CONSTANTS, Flags, Place, Placed, Places, Range};
use space_memory::Spaces;
use std::alloc::{AllocError, Global};

/// How many bytes there are: those that are accessed, and a few more.
const ALL: u64 = SIZE + 8;

/// All memory is below this address.
const END: u64 = 0x8000_0000;

// As many zeros as there are bytes.
fn zeros(alloc: Global) -> Result<Vec<u8>, AllocError>
    ensures { IfOk result (λ zeros. length zeros.items ≡ 65544) }
{
    vec![in alloc; 0u8; ALL as usize]
}

/// A memory with one string, of zeros, and no open call.
fn fresh_memory(alloc: Global) -> Result<Spaces, AllocError>
    ensures { IfOk result (λ memory. length memory.held.depths ≡ THREADS) }
{
    let zeros = zeros(alloc)?;
    let string = Place {
        addr: CONSTANTS.addr,
        init: Bytes8::from(zeros),
    };
    let placed = Placed {
        globals: Places::new(alloc),
        strings: Places::from(vec![in alloc; string]?),
        replay: Flags::new(alloc),
        system: Flags::new(alloc),
        faces: Flags::new(alloc),
    };
    Spaces::new(alloc, &placed)
}

/// A call of the thread holds the range, to be written below the cut.
#[tactic(auto, using(crate::proofs::Depths::is_open, crate::proofs::Depths::as_many))]
fn hold(alloc: Global, memory: &mut Spaces, thread: u8, range: Range) -> anyhow::Result<()>
    requires thread { thread < THREADS }
    requires all { length memory.old.held.depths ≡ THREADS }
    ensures all { length memory.new.held.depths ≡ THREADS }
{
    memory.open(thread)?;
    memory.hold(alloc, thread, range, true)?;
    Ok(())
}

/// Calls of eight threads hold a region each.
fn hold_beside(alloc: Global, memory: &mut Spaces) -> anyhow::Result<()>
    requires { length memory.old.held.depths ≡ THREADS }
{
    for thread in 1..9 {
        let addr = memory.alloc_in(Side::Replay, 64).context("no block")?;
        hold(alloc, memory, thread, Range { addr, len: 64 })?;
    }
    Ok(())
}

/// The first byte of a block that the kind accesses. What is held is held then.
fn first_byte(alloc: Global, memory: &mut Spaces, kind: AccessKind) -> anyhow::Result<u64>
    requires { length memory.old.held.depths ≡ THREADS }
    ensures { IfOk result (λ base. base < 2 ^ 31) }
{
    let addr = memory.alloc_in(kind.home(), ALL).context("no block")?;
    if addr >= END {
        bail!("a block out of all memory");
    }
    match kind {
        AccessKind::Beside => hold_beside(alloc, memory)?,
        AccessKind::Handed => hold(alloc, memory, 0, Range { addr, len: ALL })?,
        AccessKind::Words
        | AccessKind::Ints
        | AccessKind::Shorts
        | AccessKind::Bytes
        | AccessKind::Constants
        | AccessKind::Below
        | AccessKind::Ranges => {}
    }
    Ok(addr)
}

// What so many accesses of a kind make over this memory.
fn over(alloc: Global, memory: &mut Spaces, kind: AccessKind, rounds: u64) -> anyhow::Result<u64>
    requires { length memory.old.held.depths ≡ THREADS }
{
    let base = first_byte(alloc, memory, kind)?;
    let width = kind.width();
    let pattern = Pattern { width, rounds };
    match kind {
        AccessKind::Constants => Ok(spaces::loads(memory, kind.side(), CONSTANTS.addr, pattern)?),
        AccessKind::Ranges => Ok(spaces::ranges(alloc, memory, kind.side(), base, rounds)?),
        AccessKind::Words
        | AccessKind::Ints
        | AccessKind::Shorts
        | AccessKind::Bytes
        | AccessKind::Below
        | AccessKind::Beside
        | AccessKind::Handed => Ok(spaces::turns(memory, kind.side(), base, pattern)?),
    }
}

/// What so many accesses of a kind make over the memory of a run.
pub fn over_spaces(alloc: Global, kind: AccessKind, rounds: u64) -> anyhow::Result<u64> {
    let mut memory = fresh_memory(alloc)?;
    over(alloc, &mut memory, kind, rounds)
}

/// The same over plain bytes.
pub fn over_plain(alloc: Global, kind: AccessKind, rounds: u64) -> Result<u64, AllocError> {
    let mut bytes = zeros(alloc)?;
    let width = kind.width();
    let pattern = Pattern { width, rounds };
    match kind {
        AccessKind::Constants => Ok(plain::loads(&bytes, pattern)),
        AccessKind::Ranges => plain::ranges(alloc, &mut bytes, rounds),
        AccessKind::Words
        | AccessKind::Ints
        | AccessKind::Shorts
        | AccessKind::Bytes
        | AccessKind::Below
        | AccessKind::Beside
        | AccessKind::Handed => Ok(plain::turns(&mut bytes, pattern)),
    }
}

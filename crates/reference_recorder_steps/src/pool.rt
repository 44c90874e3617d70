//! Blocks of the pool below the cut.

ghost use Rattle.std.specs.Prelude.{◌≡◌, ℕ, IfOk};
ghost use Rattle.whole_runs.specs.Below.{block_at};
ghost use Rattle.whole_runs.specs.Steps.{IsAllocation, IsRelease, zeros};
ghost use Rattle.reference_recorder_marks.specs.Marks.{past};
ghost use Rattle.reference_recorder_steps.specs.Carried.{step_of};

use crate::carried::Carried;
use marks::Range;
use memory_map::SYSTEM_POOL;
use reference_recorder_marks::{Mark, Piece, PieceList, RangeList, granted};
use reference_recorder_outcomes::first;
use reference_recorder_places::place_in;
use reference_recorder_regions::system_blocks;
use run_events::Bytes;
use std::alloc::{AllocError, Global};

/// What a call of `r2_malloc` comes to after these marks, the oldest first: a block of zeros at the least place that there is, or 0
/// where there is none.
///
/// `AllocError` where there is no memory.
pub fn allocation(alloc: Global, marks: &[Mark], args: &[u64]) -> Result<Carried, AllocError>
    ensures { (func : ℕ) → IfOk result (λ c. IsAllocation (past marks.now) (step_of func args.now c)) }
{
    let size = first(args);
    let blocks = system_blocks(alloc, marks)?;
    let at = place_in(SYSTEM_POOL, &blocks, size);
    let pieces = zeros(alloc, at, granted(at, size))?;
    Ok(Carried {
        result: at,
        ins: PieceList::new(alloc),
        pieces,
        freed: RangeList::new(alloc),
    })
}

// A piece of so many zeros.
fn zeros(alloc: Global, at: u64, size: u64) -> Result<PieceList, AllocError>
    ensures { IfOk result (λ ps. ps ≡ zeros at size) }
{
    let bytes = vec![in alloc; 0; size as usize]?;
    let mut pieces = Vec::new(alloc);
    pieces.push(Piece {
        range: Range {
            addr: at,
            len: size,
        },
        bytes: Bytes::from(bytes),
    })?;
    Ok(PieceList::from(pieces))
}

/// What a call of `r2_free` comes to after these marks, the oldest first: the block that begins there is given back.
///
/// `AllocError` where there is no memory.
pub fn release(alloc: Global, marks: &[Mark], args: &[u64]) -> Result<Carried, AllocError>
    ensures { (func : ℕ) → IfOk result (λ c. IsRelease (past marks.now) (step_of func args.now c)) }
{
    let freed = blocks_at(alloc, marks, first(args))?;
    Ok(Carried {
        result: 0,
        ins: PieceList::new(alloc),
        pieces: PieceList::new(alloc),
        freed: RangeList::from(freed),
    })
}

// The block that begins at the address, if one does.
fn blocks_at(alloc: Global, marks: &[Mark], at: u64) -> Result<Vec<Range>, AllocError>
    ensures { IfOk result (λ bs. bs.items ≡ block_at at (past marks.now)) }
{
    let mut blocks = system_blocks(alloc, marks)?;
    blocks.retain(|block| block.addr == at);
    Ok(blocks)
}

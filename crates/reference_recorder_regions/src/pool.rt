//! The live blocks of a pool, the newest first.

ghost use Rattle.std.specs.Prelude.{◌≡◌, ◌<◌, ◌==◌, ◌∷◌, if◌then◌else◌, length, MatchOption, OnOk};
ghost use Rattle.std.specs.List.{remove};
ghost use Rattle.marks.specs.Ranges.{range};
ghost use Rattle.marks.specs.Bytes.{granted};
ghost use Rattle.replay_runs.specs.Pool.{blocks_after, without};
ghost use Rattle.reference_recorder_marks.specs.Marks.{kind_of};

use marks::Range;
use reference_recorder_marks::{EventKind, granted};
use std::alloc::AllocError;

/// What an event makes of the blocks. Without memory they stay as they are.
pub fn blocks_after(kind: &EventKind, blocks: &mut Vec<Range>) -> Result<(), AllocError>
    ensures { OnOk result (blocks.new.items ≡ blocks_after (kind_of kind.now) blocks.old.items) }
{
    match kind {
        EventKind::Call { .. } => Ok(()),
        EventKind::Ret { .. } => Ok(()),
        EventKind::Up { .. } => Ok(()),
        EventKind::UpRet { .. } => Ok(()),
        EventKind::Alloc { at, size } => with_block(*at, *size, blocks),
        EventKind::Free { at, size: _ } => {
            without(*at, blocks);
            Ok(())
        }
        EventKind::Stop { .. } => Ok(()),
    }
}

/// Puts in the block that is given, unless it was refused or has no bytes.
pub fn with_block(at: u64, size: u64, blocks: &mut Vec<Range>) -> Result<(), AllocError>
    ensures { OnOk result (blocks.new.items ≡ (if granted at size == 0 then blocks.old.items
        else range at size ∷ blocks.old.items)) }
{
    if granted(at, size) == 0 {
        return Ok(());
    }
    blocks.insert(
        0,
        Range {
            addr: at,
            len: size,
        },
    )?;
    Ok(())
}

/// Takes away the first block that begins at the address, if one does.
pub fn without(at: u64, blocks: &mut Vec<Range>)
    ensures { blocks.new.items ≡ without at blocks.old.items }
{
    if let Some(place) = place_of(at, blocks) {
        blocks.remove(place);
    }
}

// Where the first one stands that begins at the address.
fn place_of(at: u64, blocks: &[Range]) -> Option<usize>
    ensures { MatchOption result (without at blocks.now ≡ blocks.now)
        (λ i. (i < length blocks.now) × (without at blocks.now ≡ remove blocks.now i)) }
{
    for (place, block) in blocks.iter().enumerate() {
        if is_at(*block, at) {
            return Some(place);
        }
    }
    None
}

fn is_at(block: Range, at: u64) -> bool
    ensures { result ≡ (block.addr == at) }
{
    block.addr == at
}

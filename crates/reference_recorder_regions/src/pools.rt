//! The live blocks of both pools after a list of marks.

ghost use Rattle.std.specs.Prelude.{◌≡◌, IfOk, OnOk};
ghost use Rattle.replay_runs.specs.Pool.{act_blocks as act_blocks_above, blocks};
ghost use Rattle.whole_runs.specs.World.{World, begin};
ghost use Rattle.whole_runs.specs.Sides.{seen};
ghost use Rattle.whole_runs.specs.Below.{act_blocks, builtin_blocks, system_blocks};
ghost use Rattle.reference_recorder_marks.specs.Marks.{act_of, mark_of, past};
ghost use Rattle.reference_recorder_regions.specs.Steps.{blocks_step};

use crate::pool::{blocks_after, with_block, without};
use c_builtins::Builtin;
use marks::Range;
use reference_recorder_marks::{Act, Mark, has_key, is_above};
use reference_recorder_outcomes::{builtin_of, first};
use run_events::{Class, Key};
use std::alloc::{AllocError, Global};

/// The live blocks above the cut after the marks, which stand with the oldest first; of the blocks the newest comes first.
pub fn blocks(alloc: Global, marks: &[Mark]) -> Result<Vec<Range>, AllocError>
    ensures { (w : World) → IfOk result (λ bs. bs.items ≡ blocks (begin w) (seen (past marks.now))) }
{
    let mut blocks = Vec::new(alloc);
    for mark in marks {
        note_above(mark, &mut blocks)?;
    }
    Ok(blocks)
}

// What a mark makes of them: only the events of the pool change them.
fn note_above(mark: &Mark, blocks: &mut Vec<Range>) -> Result<(), AllocError>
    ensures { OnOk result (blocks.new.items ≡ blocks_step (mark_of mark.now) blocks.old.items) }
{
    let pool = Key {
        class: Class::Pool,
        value: 0,
    };
    if is_above(mark) && has_key(&mark.act, pool) {
        act_blocks_above(&mark.act, blocks)
    } else {
        Ok(())
    }
}

fn act_blocks_above(act: &Act, blocks: &mut Vec<Range>) -> Result<(), AllocError>
    ensures { OnOk result (blocks.new.items ≡ act_blocks_above (act_of act.now) blocks.old.items) }
{
    match act {
        Act::Turn => Ok(()),
        Act::Load { .. } => Ok(()),
        Act::Store { .. } => Ok(()),
        Act::Enter { .. } => Ok(()),
        Act::Leave { .. } => Ok(()),
        Act::Step { .. } => Ok(()),
        Act::Fault { .. } => Ok(()),
        Act::Made(event) => blocks_after(&event.kind, blocks),
    }
}

/// The live blocks below the cut after the marks, the newest first.
pub fn system_blocks(alloc: Global, marks: &[Mark]) -> Result<Vec<Range>, AllocError>
    ensures { IfOk result (λ bs. bs.items ≡ system_blocks (past marks.now)) }
{
    let mut blocks = Vec::new(alloc);
    for mark in marks {
        act_blocks(&mark.act, &mut blocks)?;
    }
    Ok(blocks)
}

fn act_blocks(act: &Act, blocks: &mut Vec<Range>) -> Result<(), AllocError>
    ensures { OnOk result (blocks.new.items ≡ act_blocks (act_of act.now) blocks.old.items) }
{
    match act {
        Act::Turn => Ok(()),
        Act::Load { .. } => Ok(()),
        Act::Store { .. } => Ok(()),
        Act::Enter { .. } => Ok(()),
        Act::Leave { .. } => Ok(()),
        Act::Step {
            func,
            args,
            result,
            ..
        } => builtin_blocks(builtin_of(*func), args.as_slice(), *result, blocks),
        Act::Fault { .. } => Ok(()),
        Act::Made(_) => Ok(()),
    }
}

// What one step of a builtin or external makes of them.
fn builtin_blocks(
    builtin: Option<Builtin>,
    args: &[u64],
    value: u64,
    blocks: &mut Vec<Range>,
) -> Result<(), AllocError>
    ensures { OnOk result (blocks.new.items ≡ builtin_blocks builtin args.now value blocks.old.items) }
{
    match builtin {
        Some(Builtin::Malloc) => with_block(value, first(args), blocks),
        Some(Builtin::Free) => {
            without(first(args), blocks);
            Ok(())
        }
        Some(Builtin::Spawn) => Ok(()),
        Some(Builtin::Join) => Ok(()),
        Some(Builtin::Lock) => Ok(()),
        Some(Builtin::Unlock) => Ok(()),
        Some(Builtin::Print) => Ok(()),
        None => Ok(()),
    }
}

//! Events.

ghost use Rattle.std.specs.Prelude.{◌<◌, ℕ, OnOk};
ghost use Rattle.marks.specs.Marks.{Alloc, Free};
ghost use Rattle.memory_map.specs.declared.areas.TheConstants.{THREADS};
ghost use Rattle.reference_recorder_marks.specs.Marks.{kind_of};
ghost use Rattle.reference_recorder_spaces.specs.Next.{IsKindNext, MakesKind};

use crate::calls::call;
use crate::returns::give_back;
use marks::Side;
use reference_recorder_marks::EventKind;
use space_memory::Spaces;
use std::alloc::{AllocError, Global};

/// Does an event of this kind.
pub fn make(
    spaces: &mut Spaces,
    alloc: Global,
    thread: u8,
    kind: &EventKind,
) -> Result<(), AllocError>
    requires in_range { thread < THREADS }
    requires next { IsKindNext spaces.old thread (kind_of kind.now) }
    ensures { OnOk result (MakesKind spaces.old thread (kind_of kind.now) spaces.new) }
{
    match kind {
        EventKind::Call {
            ins,
            outs,
            prepared,
            ..
        } => call(
            spaces,
            alloc,
            thread,
            ins.as_slice(),
            outs.as_slice(),
            prepared.as_slice(),
        ),
        EventKind::Ret { outs, commit, .. } => {
            give_back(spaces, alloc, thread, outs.as_slice(), commit)
        }
        EventKind::Up { .. } => Ok(()),
        EventKind::UpRet { .. } => Ok(()),
        EventKind::Alloc { size, .. } => {
            take(spaces, *size);
            Ok(())
        }
        EventKind::Free { at, .. } => {
            free(spaces, *at);
            Ok(())
        }
        EventKind::Stop { .. } => Ok(()),
    }
}

// Does an Alloc of a block of the size, if the pool has a place for it.
fn take(spaces: &mut Spaces, size: u64)
    ensures { (thread at : ℕ) → MakesKind spaces.old thread (Alloc at size) spaces.new }
{
    match spaces.alloc_in(Side::Replay, size) {
        Some(_) => (),
        None => (),
    }
}

// Does a Free of the block at the address.
fn free(spaces: &mut Spaces, at: u64)
    requires { (thread : ℕ) × (size : ℕ) × IsKindNext spaces.old thread (Free at size) }
    ensures { (thread size : ℕ) → MakesKind spaces.old thread (Free at size) spaces.new }
{
    match spaces.free_in(Side::Replay, at) {
        Ok(_) => (),
        Err(_) => unreachable!("the block is live and not pending"),
    }
}

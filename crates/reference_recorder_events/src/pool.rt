//! Blocks above the cut.

ghost use Rattle.std.specs.Prelude.{◌≡◌, ◌==◌, if◌then◌else◌, IfOk};
ghost use Rattle.replay_runs.specs.Runs.{byte};
ghost use Rattle.whole_runs.specs.World.{World, begin};
ghost use Rattle.whole_runs.specs.Sides.{seen};
ghost use Rattle.recorder_threads.specs.declared.wants.Want.TheVariants as wants;
ghost use Rattle.recorder_state.specs.Inputs.{world_of};
ghost use Rattle.reference_recorder_marks.specs.Marks.{past};
ghost use Rattle.reference_recorder_events.specs.Events.{IsMarkAbove, IsNextAbove};

use crate::making::next_event;
use memory_map::{Placed, REPLAY_POOL};
use recorder_state::Inputs;
use reference_recorder_marks::{EventKind, Mark};
use reference_recorder_memory::byte;
use reference_recorder_places::place_in;
use reference_recorder_regions::blocks;
use std::alloc::{AllocError, Global};
use stub_calls::Done;

/// The mark of an Alloc, which gives the thread a block of so many bytes: at the least place in the pool, or none where there is none.
///
/// `AllocError` where there is no memory.
pub fn alloc_block(
    alloc: Global,
    inputs: Inputs<'_>,
    marks: &[Mark],
    thread: u8,
    size: u64,
) -> Result<Mark, AllocError>
    requires { IsNextAbove (world_of inputs) marks.now thread (wants.Alloc size) }
    ensures { IfOk result (IsMarkAbove (world_of inputs.entry) marks.now thread (wants.Alloc size)) }
{
    let blocks = blocks(alloc, marks)?;
    let at = place_in(REPLAY_POOL, &blocks, size);
    let no_call = Done::new(alloc);
    next_event(
        alloc,
        inputs,
        marks,
        thread,
        EventKind::Alloc { at, size },
        &no_call,
    )
}

/// The mark of a Free, which takes back the block that begins at the address, or none at 0.
///
/// `AllocError` where there is no memory.
pub fn free_block(
    alloc: Global,
    inputs: Inputs<'_>,
    marks: &[Mark],
    thread: u8,
    addr: u64,
) -> Result<Mark, AllocError>
    requires { IsNextAbove (world_of inputs) marks.now thread (wants.Free addr) }
    ensures { IfOk result (IsMarkAbove (world_of inputs.entry) marks.now thread (wants.Free addr)) }
{
    let size = block_size(inputs.placed, marks, addr);
    let no_call = Done::new(alloc);
    next_event(
        alloc,
        inputs,
        marks,
        thread,
        EventKind::Free { at: addr, size },
        &no_call,
    )
}

// How many bytes the block has that begins at the address; 0 of NULL.
fn block_size(placed: &Placed, marks: &[Mark], addr: u64) -> u64
    ensures { (w : World) → w.laid.placed ≡ placed.now → result ≡
        (if addr == 0 then 0 else (byte (begin w) addr (seen (past marks.now))).block) }
{
    if addr == 0 {
        0
    } else {
        byte(placed, marks, addr).block
    }
}

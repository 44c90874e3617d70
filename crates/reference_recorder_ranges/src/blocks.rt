//! Blocks above the cut that are given back.

ghost use Rattle.std.specs.Prelude.{◌≡◌, List, IfOk};
ghost use Rattle.marks.specs.Marks.{Mark as Shown};
ghost use Rattle.marks.specs.Wants.{Frees};
ghost use Rattle.replay_runs.specs.Runs.{byte as byte_in};
ghost use Rattle.replay_runs.specs.Checks.{checks, freed_range as freed_range_in};
ghost use Rattle.whole_runs.specs.World.{World, begin, interface};
ghost use Rattle.whole_runs.specs.Sides.{seen};
ghost use Rattle.reference_recorder_findings.specs.Findings.{IsFound};
ghost use Rattle.reference_recorder_ranges.specs.Pasts.{IsLowPastOf};
ghost use Rattle.reference_recorder_ranges.specs.Checks.{block_checks};

use crate::above::{dead, pending};
use marks::{FaultKind, Range};
use reference_recorder_findings::{Finding, other_space};
use reference_recorder_memory::byte;
use reference_recorder_uses::{Past, race};
use std::alloc::{AllocError, Global};

// The size of the block above the cut that begins at the address, 0 where none does.
fn block_size(run: Past<'_>, addr: u64) -> u64
    ensures { (w : World) (p : List Shown) → IsLowPastOf w p run.entry →
        result ≡ (byte_in (begin w) addr (seen p)).block }
{
    byte(run.placed, run.marks, addr).block
}

// The block, or the one byte where none begins.
fn freed_range(addr: u64, size: u64) -> Range
    ensures { result ≡ freed_range_in addr size }
{
    let len = if size == 0 { 1 } else { size };
    Range { addr, len }
}

// What is found where the thread gives back the block above the cut that begins at the address and has this size, 0 where there is none.
fn freed_block(
    alloc: Global,
    run: Past<'_>,
    thread: u8,
    addr: u64,
    size: u64,
) -> Result<Option<Finding>, AllocError>
    ensures { (w : World) (p : List Shown) → IsLowPastOf w p run.entry →
        IfOk result (IsFound (block_checks (begin w) (seen p) thread addr size)) }
{
    let block = freed_range(addr, size);
    if let Some(found) = other_space(block) {
        return Ok(Some(found));
    }
    if let Some(found) = race(alloc, run, thread, true, block)? {
        return Ok(Some(found));
    }
    if size == 0 {
        return Ok(Some(Finding::Fault(FaultKind::NotLive)));
    }
    if let Some(found) = dead(run, block) {
        return Ok(Some(found));
    }
    Ok(pending(run, &[], block))
}

/// What is found where the thread gives back the block above the cut that begins at the address, if it isn't NULL.
///
/// `AllocError` where there is no memory.
pub fn freed(
    alloc: Global,
    run: Past<'_>,
    thread: u8,
    addr: u64,
) -> Result<Option<Finding>, AllocError>
    ensures { (w : World) (p : List Shown) → IsLowPastOf w p run.entry →
        IfOk result (IsFound (checks (interface w) (begin w) (seen p) thread (Frees addr))) }
{
    if addr == 0 {
        return Ok(None);
    }
    let size = block_size(run, addr);
    freed_block(alloc, run, thread, addr, size)
}

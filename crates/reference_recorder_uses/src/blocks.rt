//! Blocks that are given back.

ghost use Rattle.std.specs.Prelude.{◌≡◌, List, IfOk};
ghost use Rattle.marks.specs.Marks.{Mark as Shown};
ghost use Rattle.whole_runs.specs.World.{World};
ghost use Rattle.whole_runs.specs.Tests.{free_checks};
ghost use Rattle.reference_recorder_findings.specs.Findings.{IsFound};
ghost use Rattle.reference_recorder_uses.specs.Pasts.{IsPastOf};
ghost use Rattle.reference_recorder_uses.specs.Checks.{any_at};

use crate::past::Past;
use marks::{BreachKind, FaultKind, Range};
use reference_recorder_findings::Finding;
use reference_recorder_regions::system_blocks;
use reference_recorder_rights::is_replay;
use std::alloc::{AllocError, Global};

// Whether one of the blocks begins at the address.
fn any_at(blocks: &[Range], addr: u64) -> bool
    ensures { result ≡ any_at addr blocks.now }
{
    for block in blocks {
        if block.addr == addr {
            return true;
        }
    }
    false
}

/// What is found where `r2_free` below the cut gives back the block that begins at the address, if it isn't NULL.
///
/// `AllocError` where there is no memory.
pub fn freed_below(alloc: Global, run: Past<'_>, addr: u64) -> Result<Option<Finding>, AllocError>
    ensures { (w : World) (p : List Shown) → IsPastOf w p run.entry →
        IfOk result (IsFound (free_checks w p addr)) }
{
    if addr == 0 {
        return Ok(None);
    }
    if is_replay(addr) {
        return Ok(Some(Finding::Breach {
            kind: BreachKind::OtherSpace,
            address: addr,
            other: None,
        }));
    }
    let blocks = system_blocks(alloc, run.marks)?;
    if any_at(&blocks, addr) {
        Ok(None)
    } else {
        Ok(Some(Finding::Fault(FaultKind::NotLive)))
    }
}

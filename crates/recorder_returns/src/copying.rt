//! What comes up of memory with a Ret.

ghost use Rattle.std.specs.Prelude.{◌≡◌, length, true, IfOk, OnOk};
ghost use Rattle.marks.specs.Ranges.{are_bytes};
ghost use Rattle.stub_meaning.specs.Meaning.{first_of};
ghost use Rattle.space_memory_laws.specs.Returns.{used_at};
ghost use Rattle.recorder_returns.specs.Copies.{AddsCommit, AreCopies, IsBrought, IsCopy, MayBeCommitted, MayBeCopied, MayCopy};

use crate::returning::Returning;
use marks::{Range, Side};
use run_events::{Bytes, Pieces};
use smallvec::SmallVec;
use space_memory::{HoldError, Spaces};
use std::alloc::{AllocError, Global};
use stub_calls::Committing;

/// What comes up with a Ret.
#[derive(Drop)]
pub struct Brought {
    /// The used bytes of each region that the call held to be written, and then of the one that is committed; no bytes, where that
    /// is withheld.
    pub pieces: Pieces,
    /// The regions that are given back, in the same order.
    pub ranges: SmallVec<Range, 4>,
}

/// Copies what comes up with the Ret of the thread's innermost call, of which this is said.
///
/// `AllocError` where there is no memory for it.
pub fn bring(
    spaces: &Spaces,
    alloc: Global,
    thread: u8,
    returning: &Returning,
) -> Result<Brought, AllocError>
    requires sizes { length returning.now.done.used ≡ length returning.now.ranges.items }
    requires regions { MayBeCopied spaces.now thread returning.now.ranges.items returning.now.done.used }
    requires committed { MayBeCommitted spaces.now thread (first_of returning.now.done.commits) }
    ensures { IfOk result (IsBrought spaces.now returning.now) }
{
    let regions = returning.ranges.as_slice();
    let mut pieces = copy_all(spaces, alloc, thread, regions, returning.done.used())?;
    let mut ranges = SmallVec::from_slice(alloc, regions)?;
    let commit = returning.done.commit();
    add_commit(spaces, alloc, thread, commit, &mut pieces, &mut ranges)?;
    Ok(Brought { pieces, ranges })
}

// Copies the used bytes of each region.
fn copy_all(
    spaces: &Spaces,
    alloc: Global,
    thread: u8,
    regions: &[Range],
    used: &[u64],
) -> Result<Pieces, AllocError>
    requires sizes { length used.now ≡ length regions.now }
    requires allowed { MayBeCopied spaces.now thread regions.now used.now }
    ensures { IfOk result (λ pieces. AreCopies spaces.now.bytes regions.now used.now pieces) }
{
    let mut pieces = Pieces::new();
    for (i, region) in regions.iter().enumerate() {
        let piece = copy(spaces, alloc, thread, *region, used[i])?;
        pieces.push(alloc, piece)?;
    }
    Ok(pieces)
}

// Adds what is committed, if anything is.
fn add_commit(
    spaces: &Spaces,
    alloc: Global,
    thread: u8,
    commit: Option<Committing>,
    pieces: &mut Pieces,
    ranges: &mut SmallVec<Range, 4>,
) -> Result<(), AllocError>
    requires { MayBeCommitted spaces.now thread commit }
    ensures { OnOk result (AddsCommit spaces.now commit pieces.old ranges.old.items
        pieces.new ranges.new.items) }
{
    let Some(committing) = commit else {
        return Ok(());
    };
    let Some(used) = committing.used else {
        pieces.push(alloc, Bytes::new(alloc))?;
        return Ok(());
    };
    let Some(region) = spaces.prepared(committing.key) else {
        unreachable!("a key that is committed is in use");
    };
    let piece = copy(spaces, alloc, thread, region, used)?;
    pieces.push(alloc, piece)?;
    ranges.push(region)?;
    Ok(())
}

// Copies the used bytes of a region: none of that of a NULL pointer.
fn copy(
    spaces: &Spaces,
    alloc: Global,
    thread: u8,
    region: Range,
    used: u64,
) -> Result<Bytes, AllocError>
    requires { MayCopy spaces.now thread region used }
    ensures { IfOk result (IsCopy spaces.now.bytes region used) }
{
    let range = Range {
        addr: region.addr,
        len: used_in(region, used),
    };
    match spaces.copy(alloc, Side::System, thread, range) {
        Ok(bytes) => {
            check(bytes.as_slice());
            Ok(Bytes::from(bytes.into_vec()))
        }
        Err(HoldError::Memory) => Err(AllocError),
        Err(HoldError::Refused(_)) => unreachable!("what a call holds may be read below the cut"),
    }
}

// How much of a region is used: none of that of a NULL pointer.
fn used_in(region: Range, used: u64) -> u64
    ensures { result ≡ used_at region used }
{
    if region.addr == 0 { 0 } else { used }
}

// What is known of all bytes.
fn check(bytes: &[u8])
    ensures { are_bytes bytes.now ≡ true }
{}

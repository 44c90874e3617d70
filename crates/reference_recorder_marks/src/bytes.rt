//! Which bytes a mark reads and writes.

ghost use Rattle.std.specs.Prelude.{◌≡◌, ◌++◌};
ghost use Rattle.marks.specs.Places.{is_constant};
ghost use Rattle.marks.specs.Bytes.{access_reads, access_writes, event_reads, event_writes, granted, late, late_event, place, reads, touches, writes};
ghost use Rattle.marks.specs.Marks.{released};
ghost use Rattle.marks.specs.Ranges.{any_piece, within};
ghost use Rattle.reference_recorder_marks.specs.Marks.{access_of, act_of, commit_of, kind_of, mark_of};

use crate::lists::Piece;
use crate::mark::{Access, Act, Commit, EventKind, Mark};
use crate::ranges::{any_piece, any_prepared, any_range, is_in_piece};
use marks::Range;

/// Whether the address is one of so many from the first one on.
pub fn within(at: u64, size: u64, addr: u64) -> bool
    ensures { result ≡ within at size addr }
{
    Range {
        addr: at,
        len: size,
    }
    .has(addr)
}

/// Whether it is that of a constant, which no code writes.
pub fn is_constant(addr: u64) -> bool
    ensures { result ≡ is_constant addr }
{
    addr >= 0x10_0000 && addr < 0x1000_0000
}

/// Whether the mark reads the byte at the address.
pub fn reads(act: &Act, addr: u64) -> bool
    ensures { result ≡ reads (act_of act.now) addr }
{
    match act {
        Act::Turn => false,
        Act::Load { at, bytes, .. } => within(*at, bytes.as_slice().len() as u64, addr),
        Act::Store { .. } => false,
        Act::Enter { .. } => false,
        Act::Leave { .. } => false,
        Act::Step { .. } => false,
        Act::Fault { ins, access, .. } => {
            any_range(ins.as_slice(), addr) || access_reads(*access, addr)
        }
        Act::Made(event) => event_reads(&event.kind, addr),
    }
}

fn access_reads(access: Access, addr: u64) -> bool
    ensures { result ≡ access_reads (access_of access) addr }
{
    match access {
        Access::Nowhere => false,
        Access::Reading(range) => range.has(addr),
        Access::Writing(range) => range.has(addr) && is_constant(addr),
        Access::Freeing(at) => within(at, 1, addr) && is_constant(addr),
    }
}

fn event_reads(kind: &EventKind, addr: u64) -> bool
    ensures { result ≡ event_reads (kind_of kind.now) addr }
{
    match kind {
        EventKind::Call { ins, .. } => any_piece(ins.as_slice(), addr),
        EventKind::Ret { .. } => false,
        EventKind::Up { .. } => false,
        EventKind::UpRet { .. } => false,
        EventKind::Alloc { .. } => false,
        EventKind::Free { .. } => false,
        EventKind::Stop { .. } => false,
    }
}

/// Whether the mark writes the byte at the address, or holds it.
pub fn writes(act: &Act, addr: u64) -> bool
    ensures { result ≡ writes (act_of act.now) addr }
{
    match act {
        Act::Turn => false,
        Act::Load { .. } => false,
        Act::Store { at, bytes, .. } => within(*at, bytes.as_slice().len() as u64, addr),
        Act::Enter { at, bytes, .. } => within(*at, bytes.as_slice().len() as u64, addr),
        Act::Leave { at, size } => within(*at, *size, addr),
        Act::Step { .. } => false,
        Act::Fault { outs, access, .. } => {
            any_range(outs.as_slice(), addr) || access_writes(*access, addr)
        }
        Act::Made(event) => event_writes(&event.kind, addr),
    }
}

fn access_writes(access: Access, addr: u64) -> bool
    ensures { result ≡ access_writes (access_of access) addr }
{
    match access {
        Access::Nowhere => false,
        Access::Reading(_) => false,
        Access::Writing(range) => range.has(addr) && !is_constant(addr),
        Access::Freeing(at) => within(at, 1, addr) && !is_constant(addr),
    }
}

fn event_writes(kind: &EventKind, addr: u64) -> bool
    ensures { result ≡ event_writes (kind_of kind.now) addr }
{
    match kind {
        EventKind::Call { outs, prepared, .. } => {
            any_range(outs.as_slice(), addr) || any_prepared(prepared.as_slice(), addr)
        }
        EventKind::Ret { outs, commit, .. } => is_brought(outs.as_slice(), commit, addr),
        EventKind::Up { .. } => false,
        EventKind::UpRet { .. } => false,
        EventKind::Alloc { at, size } => within(*at, granted(*at, *size), addr),
        EventKind::Free { at, size } => within(*at, *size, addr),
        EventKind::Stop { .. } => false,
    }
}

/// Whether the address lies in what a Ret brings up: the ranges of these pieces, and the region that it releases.
pub fn is_brought(outs: &[Piece], commit: &Commit, addr: u64) -> bool
    ensures { result ≡ any_piece (outs.now ++ released (commit_of commit.now)) addr }
{
    let in_outs = any_piece(outs, addr);
    in_outs || is_released(commit, addr)
}

/// Whether the address lies in the region that the commit releases.
pub fn is_released(commit: &Commit, addr: u64) -> bool
    ensures { result ≡ any_piece (released (commit_of commit.now)) addr }
{
    match commit {
        Commit::NoRegion => false,
        Commit::Withheld => false,
        Commit::Released { region, .. } => is_in_piece(region, addr),
    }
}

/// The bytes of the block that an Alloc gives: none where it was refused.
pub fn granted(at: u64, size: u64) -> u64
    ensures { result ≡ granted at size }
{
    if at == 0 { 0 } else { size }
}

/// Whether the mark reads or writes the byte at the address.
pub fn touches(act: &Act, addr: u64) -> bool
    ensures { result ≡ touches (act_of act.now) addr }
{
    reads(act, addr) || writes(act, addr)
}

/// Whether the accesses of the mark come after its event.
pub fn late(act: &Act) -> bool
    ensures { result ≡ late (act_of act.now) }
{
    match act {
        Act::Turn => false,
        Act::Load { .. } => false,
        Act::Store { .. } => false,
        Act::Enter { .. } => false,
        Act::Leave { .. } => false,
        Act::Step { .. } => false,
        Act::Fault { .. } => false,
        Act::Made(event) => late_event(&event.kind),
    }
}

fn late_event(kind: &EventKind) -> bool
    ensures { result ≡ late_event (kind_of kind.now) }
{
    match kind {
        EventKind::Call { .. } => false,
        EventKind::Ret { .. } => true,
        EventKind::Up { .. } => false,
        EventKind::UpRet { .. } => false,
        EventKind::Alloc { .. } => true,
        EventKind::Free { .. } => false,
        EventKind::Stop { .. } => false,
    }
}

/// How many events of its thread come before the accesses of the mark.
pub fn place(mark: &Mark) -> u64
    ensures { result ≡ place (mark_of mark.now) }
{
    let index = mark.index as u64;
    if late(&mark.act) { index + 1 } else { index }
}

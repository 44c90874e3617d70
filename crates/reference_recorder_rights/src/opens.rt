//! What the open calls of a thread hold and read.

ghost use Rattle.std.specs.Prelude.{◌≡◌, ◌∷◌, map, IfOk, OnOk};
ghost use Rattle.marks.specs.Opens.{open_calls, tail};
ghost use Rattle.replay_runs.specs.Runs.{marks_of};
ghost use Rattle.whole_runs.specs.World.{World, begin};
ghost use Rattle.whole_runs.specs.Sides.{seen};
ghost use Rattle.reference_recorder_marks.specs.Marks.{act_of, kind_of, mark_of, past};
ghost use Rattle.reference_recorder_rights.specs.Rights.{act_flags, any_holds, any_reads, flags_after, flags_of, flags_step};

use marks::Side;
use reference_recorder_marks::{Act, EventKind, Mark, any_piece, any_range};
use reference_recorder_regions::is_own;
use std::alloc::{AllocError, Global};

// Whether an open call holds the byte at an address, and whether it reads it.
#[derive(Clone, Copy)]
pub(crate) struct Flags {
    pub holds: bool,
    pub reads: bool,
}

// Of each open call of the thread, the innermost first.
pub(crate) fn open_flags(
    alloc: Global,
    marks: &[Mark],
    thread: u8,
    addr: u64,
) -> Result<Vec<Flags>, AllocError>
    ensures { (w : World) → IfOk result (λ fs. fs.items ≡
        map (flags_of addr) (open_calls (marks_of (begin w) thread (seen (past marks.now))))) }
{
    let mut calls = Vec::new(alloc);
    for mark in marks {
        note_call(mark, thread, addr, &mut calls)?;
    }
    Ok(calls)
}

// What a mark makes of them.
fn note_call(mark: &Mark, thread: u8, addr: u64, calls: &mut Vec<Flags>) -> Result<(), AllocError>
    ensures { OnOk result (calls.new.items ≡ flags_step addr thread (mark_of mark.now) calls.old.items) }
{
    if is_own(mark, Side::Replay, thread) {
        act_flags(&mark.act, addr, calls)
    } else {
        Ok(())
    }
}

fn act_flags(act: &Act, addr: u64, calls: &mut Vec<Flags>) -> Result<(), AllocError>
    ensures { OnOk result (calls.new.items ≡ act_flags addr (act_of act.now) calls.old.items) }
{
    match act {
        Act::Turn => Ok(()),
        Act::Load { .. } => Ok(()),
        Act::Store { .. } => Ok(()),
        Act::Enter { .. } => Ok(()),
        Act::Leave { .. } => Ok(()),
        Act::Step { .. } => Ok(()),
        Act::Fault { .. } => Ok(()),
        Act::Made(event) => flags_after(&event.kind, addr, calls),
    }
}

fn flags_after(kind: &EventKind, addr: u64, calls: &mut Vec<Flags>) -> Result<(), AllocError>
    ensures { OnOk result (calls.new.items ≡ flags_after addr (kind_of kind.now) calls.old.items) }
{
    match kind {
        EventKind::Call { ins, outs, .. } => {
            let flags = Flags {
                holds: any_range(outs.as_slice(), addr),
                reads: any_piece(ins.as_slice(), addr),
            };
            open_one(flags, calls)
        }
        EventKind::Ret { .. } => {
            close_one(calls);
            Ok(())
        }
        EventKind::Up { .. } => Ok(()),
        EventKind::UpRet { .. } => Ok(()),
        EventKind::Alloc { .. } => Ok(()),
        EventKind::Free { .. } => Ok(()),
        EventKind::Stop { .. } => Ok(()),
    }
}

fn open_one(flags: Flags, calls: &mut Vec<Flags>) -> Result<(), AllocError>
    ensures { OnOk result (calls.new.items ≡ flags ∷ calls.old.items) }
{
    calls.insert(0, flags)?;
    Ok(())
}

fn close_one(calls: &mut Vec<Flags>)
    ensures { calls.new.items ≡ tail calls.old.items }
{
    if !calls.is_empty() {
        calls.remove(0);
    }
}

pub(crate) fn any_holds(calls: &[Flags]) -> bool
    ensures { result ≡ any_holds calls.now }
{
    for flags in calls {
        if flags.holds {
            return true;
        }
    }
    false
}

pub(crate) fn any_reads(calls: &[Flags]) -> bool
    ensures { result ≡ any_reads calls.now }
{
    for flags in calls {
        if flags.reads {
            return true;
        }
    }
    false
}

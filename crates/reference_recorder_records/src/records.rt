//! The record of an event, in which a return has its values also where it repeats the one before.

ghost use Rattle.std.specs.Prelude.{◌≡◌, ◌++◌, ◌<◌, ◌^◌, IfOk, OnOk};
ghost use Rattle.marks.specs.Marks.{logged};
ghost use Rattle.marks.specs.Ranges.{piece_bytes};
ghost use Rattle.replay_runs.specs.Records.{no_record, reason_of};
ghost use Rattle.whole_runs.specs.Records.{full_event, full_record, size_of};
ghost use Rattle.recorder_book.specs.Sizes.{IsInFull};
ghost use Rattle.reference_recorder_marks.specs.Marks.{commit_of, kind_of, mark_of};

use crate::copies::{add_pieces, copy_bytes, copy_marks, copy_words};
use marks::FaultKind;
use recorder_book::record_size;
use reference_recorder_marks::{Act, Commit, Event as MadeEvent, EventKind, Mark, PieceList};
use run_events::{Bytes, Event, Marks, Pieces, Reason, Record};
use std::alloc::{AllocError, Global};

/// Adds what a log has of a commit.
fn add_commit(alloc: Global, to: &mut Vec<Bytes>, commit: &Commit) -> Result<(), AllocError>
    ensures { OnOk result (to.new.items ≡ to.old.items ++ logged (commit_of commit.now)) }
{
    match commit {
        Commit::NoRegion => Ok(()),
        Commit::Withheld => {
            to.push(Bytes::new(alloc))?;
            Ok(())
        }
        Commit::Released { region, .. } => {
            to.push(copy_bytes(alloc, &region.bytes)?)?;
            Ok(())
        }
    }
}

/// The bytes that a return gives: those of its pieces, and what a log has of its commit.
pub fn logged_pieces(
    alloc: Global,
    outs: &PieceList,
    commit: &Commit,
) -> Result<Vec<Bytes>, AllocError>
    ensures { IfOk result (λ given. given.items ≡ piece_bytes outs.now ++ logged (commit_of commit.now)) }
{
    let mut given = Vec::new(alloc);
    add_pieces(alloc, &mut given, outs.as_slice())?;
    add_commit(alloc, &mut given, commit)?;
    Ok(given)
}

fn reason_of(fault: Option<FaultKind>) -> Reason
    ensures { result ≡ reason_of fault }
{
    match fault {
        None => Reason::Halted,
        Some(kind) => Reason::Fault(kind.number()),
    }
}

/// What a run keeps of an event besides its numbers.
fn full_event(alloc: Global, kind: &EventKind) -> Result<Event, AllocError>
    ensures { IfOk result (λ e. e ≡ full_event (kind_of kind.now)) }
{
    match kind {
        EventKind::Call { func, args, .. } => Ok(Event::Call {
            func: *func,
            args: copy_words(alloc, args)?,
        }),
        EventKind::Ret {
            result,
            same,
            outs,
            commit,
            ..
        } => Ok(Event::Ret {
            same: *same,
            result: *result,
            outs: Pieces::from_vec(alloc, logged_pieces(alloc, outs, commit)?)?,
        }),
        EventKind::Up { func, args } => Ok(Event::Up {
            func: *func,
            args: copy_words(alloc, args)?,
        }),
        EventKind::UpRet { result, .. } => Ok(Event::UpRet { result: *result }),
        EventKind::Alloc { at, size } => Ok(Event::Alloc {
            size: *size,
            addr: *at,
        }),
        EventKind::Free { at, .. } => Ok(Event::Free { addr: *at }),
        EventKind::Stop { fault } => Ok(Event::Stop {
            reason: reason_of(*fault),
        }),
    }
}

/// The record of no event.
fn no_record(thread: u8) -> Record
    ensures { result ≡ no_record thread }
{
    Record {
        thread,
        steps: 0,
        clock: 0,
        keys: Marks::new(),
        event: Event::Stop {
            reason: Reason::Halted,
        },
    }
}

fn made_record(alloc: Global, thread: u8, made: &MadeEvent) -> Result<Record, AllocError>
    ensures { IfOk result (λ r. r ≡ record {
      thread = thread;
      steps = made.now.steps;
      clock = made.now.clock;
      keys = made.now.keys;
      event = full_event (kind_of made.now.kind);
    }) }
{
    Ok(Record {
        thread,
        steps: made.steps,
        clock: made.clock,
        keys: copy_marks(alloc, &made.keys)?,
        event: full_event(alloc, &made.kind)?,
    })
}

/// The record of an event with its full values; of any other mark an empty one.
pub fn full_record(alloc: Global, mark: &Mark) -> Result<Record, AllocError>
    ensures { IfOk result (λ r. r ≡ full_record (mark_of mark.now)) }
{
    match &mark.act {
        Act::Turn => Ok(no_record(mark.thread)),
        Act::Load { .. } => Ok(no_record(mark.thread)),
        Act::Store { .. } => Ok(no_record(mark.thread)),
        Act::Enter { .. } => Ok(no_record(mark.thread)),
        Act::Leave { .. } => Ok(no_record(mark.thread)),
        Act::Step { .. } => Ok(no_record(mark.thread)),
        Act::Fault { .. } => Ok(no_record(mark.thread)),
        Act::Made(made) => made_record(alloc, mark.thread, made),
    }
}

/// The bytes that a run counts for an event, a return in full.
pub fn size_of(alloc: Global, mark: &Mark) -> Result<u64, AllocError>
    requires { IsInFull (full_record (mark_of mark.now)) }
    ensures size { IfOk result (λ n. n ≡ size_of (mark_of mark.now)) }
    ensures small { IfOk result (λ n. n < 2 ^ 40) }
{
    let entry = full_record(alloc, mark)?;
    Ok(record_size(&entry))
}

//! The last return of a function by a thread.

ghost use Rattle.std.specs.Prelude.{◌≡◌, ◌&&◌, ◌==◌, ◌++◌, if◌then◌else◌, IfOk, Option as Maybe};
ghost use Rattle.marks.specs.declared.side.Side.TheVariants.{Replay};
ghost use Rattle.c_code.specs.MarkLists.{same_side};
ghost use Rattle.std.specs.Option.{option_or};
ghost use Rattle.marks.specs.Marks.{logged};
ghost use Rattle.marks.specs.Ranges.{piece_bytes};
ghost use Rattle.marks.specs.Wants.{same_numbers};
ghost use Rattle.replay_runs.specs.Threads.{Returned as ShownReturn, act_return, return_after, same_lists, same_return};
ghost use Rattle.reference_recorder_marks.specs.Marks.{act_of, commit_of, kind_of, past};
ghost use Rattle.reference_recorder_calls.specs.Mine.{IsLastReturn};

use reference_recorder_marks::{Act, Commit, EventKind, Mark, PieceList, is_above};
use reference_recorder_records::logged_pieces;
use run_events::{Bytes, Pieces};
use std::alloc::{AllocError, Global};
use std::marker::Model;

/// What a return gave: its result, and the bytes of its pieces and of what it committed.
#[derive(Drop)]
pub struct Returned {
    pub result: u64,
    pub bytes: Pieces,
}

impl Model for Returned {
    ghost use Rattle.replay_runs.specs.Threads.{Returned};

    ghost Value = { Returned };

    ghost view = { λ r. record { result = r.result; bytes = r.bytes } };
}

/// What a return of one function gave, if it is the other.
fn ret_return(
    alloc: Global,
    func: u16,
    of: u16,
    value: u64,
    outs: &PieceList,
    commit: &Commit,
) -> Result<Option<Returned>, AllocError>
    ensures { IfOk result (λ gave. (before : Maybe ShownReturn) → (if of == func then Some (record {
      result = value;
      bytes = piece_bytes outs.now ++ logged (commit_of commit.now);
    }) else before) ≡ option_or gave before) }
{
    if of == func {
        let logged = logged_pieces(alloc, outs, commit)?;
        let bytes = Pieces::from_vec(alloc, logged)?;
        return Ok(Some(Returned {
            result: value,
            bytes,
        }));
    }
    Ok(None)
}

/// What an event gave, if it is a return of the function.
fn event_return(alloc: Global, func: u16, kind: &EventKind) -> Result<Option<Returned>, AllocError>
    ensures { IfOk result (λ gave. (before : Maybe ShownReturn) →
        return_after func (kind_of kind.now) before ≡ option_or gave before) }
{
    match kind {
        EventKind::Call { .. } => Ok(None),
        EventKind::Ret {
            func: of,
            result,
            outs,
            commit,
            ..
        } => ret_return(alloc, func, *of, *result, outs, commit),
        EventKind::Up { .. } => Ok(None),
        EventKind::UpRet { .. } => Ok(None),
        EventKind::Alloc { .. } => Ok(None),
        EventKind::Free { .. } => Ok(None),
        EventKind::Stop { .. } => Ok(None),
    }
}

/// What a mark gave, if it is a return of the function.
fn act_return(alloc: Global, func: u16, act: &Act) -> Result<Option<Returned>, AllocError>
    ensures { IfOk result (λ gave. (before : Maybe ShownReturn) →
        act_return func (act_of act.now) before ≡ option_or gave before) }
{
    match act {
        Act::Turn => Ok(None),
        Act::Load { .. } => Ok(None),
        Act::Store { .. } => Ok(None),
        Act::Enter { .. } => Ok(None),
        Act::Leave { .. } => Ok(None),
        Act::Step { .. } => Ok(None),
        Act::Fault { .. } => Ok(None),
        Act::Made(made) => event_return(alloc, func, &made.kind),
    }
}

/// The later of two.
fn later(gave: Option<Returned>, before: Option<Returned>) -> Option<Returned>
    ensures { result ≡ option_or gave before }
{
    match gave {
        Some(gave) => Some(gave),
        None => before,
    }
}

/// What a mark gave, if it is a return of the function by the thread above the cut.
fn mark_return(
    alloc: Global,
    mark: &Mark,
    thread: u8,
    func: u16,
) -> Result<Option<Returned>, AllocError>
    ensures { IfOk result (λ gave. (before : Maybe ShownReturn) →
        (if same_side mark.now.side Replay && mark.now.thread == thread
        then act_return func (act_of mark.now.act) before else before) ≡ option_or gave before) }
{
    if is_above(mark) && mark.thread == thread {
        return act_return(alloc, func, &mark.act);
    }
    Ok(None)
}

/// What the thread's last return of the function gave; `None` where there was none.
///
/// `AllocError` where there is no memory.
pub fn last_return(
    alloc: Global,
    marks: &[Mark],
    thread: u8,
    func: u16,
) -> Result<Option<Returned>, AllocError>
    ensures { IfOk result (IsLastReturn (past marks.now) thread func) }
{
    let mut last = None;
    for mark in marks {
        let gave = mark_return(alloc, mark, thread, func)?;
        last = later(gave, last);
    }
    Ok(last)
}

fn same_bytes(a: &[u8], b: &[u8]) -> bool
    ensures { result ≡ same_numbers a.now b.now }
{
    a == b
}

fn same_pieces(a: &[Bytes], b: &[Bytes]) -> bool
    ensures { result ≡ same_lists a.now b.now }
{
    if a.len() != b.len() {
        return false;
    }
    for at in 0..a.len() {
        if !same_bytes(a[at].as_slice(), b[at].as_slice()) {
            return false;
        }
    }
    true
}

/// Whether the last return gave this result and these bytes.
pub fn same_return(last: &Option<Returned>, value: u64, bytes: &[Bytes]) -> bool
    ensures { result ≡ same_return last.now (record { result = value; bytes = bytes.now }) }
{
    match last {
        None => false,
        Some(last) => last.result == value && same_pieces(last.bytes.as_slice(), bytes),
    }
}

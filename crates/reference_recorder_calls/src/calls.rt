//! The open calls of a thread.

ghost use Rattle.std.specs.Prelude.{◌≡◌, ◌&&◌, ◌==◌, if◌then◌else◌, IfOk, OnOk};
ghost use Rattle.marks.specs.declared.side.Side.TheVariants.{Replay};
ghost use Rattle.c_code.specs.MarkLists.{same_side};
ghost use Rattle.marks.specs.Opens.{act_calls, calls_after, tail};
ghost use Rattle.marks.specs.Ranges.{piece_ranges};
ghost use Rattle.reference_recorder_marks.specs.Marks.{act_of, kind_of, past};
ghost use Rattle.reference_recorder_calls.specs.Mine.{AreOpenCalls};

use marks::Range;
use reference_recorder_marks::{
    Act, EventKind, Mark, Piece, PieceList, RangeList, WordList, is_above,
};
use std::alloc::{AllocError, Global};
use std::marker::Model;

/// A Call that has not returned, with the ranges that it reads and holds.
#[derive(Drop)]
pub struct OpenCall {
    pub func: u16,
    pub args: WordList,
    pub ins: RangeList,
    pub outs: RangeList,
}

impl Model for OpenCall {
    ghost use Rattle.marks.specs.Opens.{OpenCall};

    ghost Value = { OpenCall };

    ghost view = { λ c. record { func = c.func; args = c.args; ins = c.ins; outs = c.outs } };
}

fn range_of(piece: &Piece) -> Range
    ensures { result ≡ piece.now.range }
{
    piece.range
}

/// The ranges of pieces.
fn ranges_of(alloc: Global, pieces: &[Piece]) -> Result<RangeList, AllocError>
    ensures { IfOk result (λ ranges. ranges ≡ piece_ranges pieces.now) }
{
    let mut ranges = Vec::new(alloc);
    for piece in pieces {
        ranges.push(range_of(piece))?;
    }
    Ok(RangeList::from(ranges))
}

fn opened(
    alloc: Global,
    func: u16,
    args: &WordList,
    ins: &PieceList,
    outs: &RangeList,
) -> Result<OpenCall, AllocError>
    ensures { IfOk result (λ c. c ≡ record {
      func = func;
      args = args.now;
      ins = piece_ranges ins.now;
      outs = outs.now;
    }) }
{
    Ok(OpenCall {
        func,
        args: WordList::from_slice(alloc, args.as_slice())?,
        ins: ranges_of(alloc, ins.as_slice())?,
        outs: RangeList::from(Vec::from_slice(alloc, outs.as_slice())?),
    })
}

/// Takes the first one away, if there is one.
fn drop_first(calls: &mut Vec<OpenCall>)
    ensures { calls.new.items ≡ tail calls.old.items }
{
    let count = calls.as_slice().len();
    if count == 0 {
        return;
    }
    calls.remove(0);
}

/// What is open after one event more.
fn event_calls(alloc: Global, calls: &mut Vec<OpenCall>, kind: &EventKind) -> Result<(), AllocError>
    ensures { OnOk result (calls.new.items ≡ calls_after (kind_of kind.now) calls.old.items) }
{
    match kind {
        EventKind::Call {
            func,
            args,
            ins,
            outs,
            ..
        } => {
            calls.insert(0, opened(alloc, *func, args, ins, outs)?)?;
            Ok(())
        }
        EventKind::Ret { .. } => {
            drop_first(calls);
            Ok(())
        }
        EventKind::Up { .. } => Ok(()),
        EventKind::UpRet { .. } => Ok(()),
        EventKind::Alloc { .. } => Ok(()),
        EventKind::Free { .. } => Ok(()),
        EventKind::Stop { .. } => Ok(()),
    }
}

/// What is open after one mark more.
fn act_calls(alloc: Global, calls: &mut Vec<OpenCall>, act: &Act) -> Result<(), AllocError>
    ensures { OnOk result (calls.new.items ≡ act_calls (act_of act.now) calls.old.items) }
{
    match act {
        Act::Turn => Ok(()),
        Act::Load { .. } => Ok(()),
        Act::Store { .. } => Ok(()),
        Act::Enter { .. } => Ok(()),
        Act::Leave { .. } => Ok(()),
        Act::Step { .. } => Ok(()),
        Act::Fault { .. } => Ok(()),
        Act::Made(made) => event_calls(alloc, calls, &made.kind),
    }
}

/// What is open in a thread after one mark more.
fn mark_calls(
    alloc: Global,
    calls: &mut Vec<OpenCall>,
    mark: &Mark,
    thread: u8,
) -> Result<(), AllocError>
    ensures { OnOk result (calls.new.items ≡ (if same_side mark.now.side Replay && mark.now.thread == thread
        then act_calls (act_of mark.now.act) calls.old.items else calls.old.items)) }
{
    if is_above(mark) && mark.thread == thread {
        return act_calls(alloc, calls, &mark.act);
    }
    Ok(())
}

/// The thread's open calls above the cut, the innermost first.
///
/// `AllocError` where there is no memory.
pub fn open_calls(alloc: Global, marks: &[Mark], thread: u8) -> Result<Vec<OpenCall>, AllocError>
    ensures { IfOk result (λ calls. AreOpenCalls (past marks.now) thread calls.items) }
{
    let mut calls = Vec::new(alloc);
    for mark in marks {
        mark_calls(alloc, &mut calls, mark, thread)?;
    }
    Ok(calls)
}

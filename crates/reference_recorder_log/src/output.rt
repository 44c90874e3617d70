//! What a run printed.

ghost use Rattle.std.specs.Prelude.{◌≡◌, ◌++◌, ◌&&◌, if◌then◌else◌, IfOk, OnOk};
ghost use Rattle.marks.specs.declared.side.Side.TheVariants.{Replay};
ghost use Rattle.c_code.specs.MarkLists.{same_side};
ghost use Rattle.replay_runs.specs.Runs.{OfKey, has};
ghost use Rattle.replay_runs.specs.Records.{pieces_in_a_row, printed, printed_at};
ghost use Rattle.whole_runs.specs.Log.{act_printed, printed_below, system_output};
ghost use Rattle.reference_recorder_marks.specs.Marks.{act_of, kind_of, mark_of, past};
ghost use Rattle.reference_recorder_log.specs.Records.{IsOutputOf};

use c_builtins::Builtin;
use reference_recorder_marks::{Act, EventKind, Mark, Piece, is_above};
use reference_recorder_stamps::{Link, has};
use run_events::{Class, Key};
use std::alloc::{AllocError, Global};

fn add_piece(to: &mut Vec<u8>, piece: &Piece) -> Result<(), AllocError>
    ensures { OnOk result (to.new.items ≡ to.old.items ++ piece.now.bytes) }
{
    to.extend_from_slice(piece.bytes.as_slice())
}

/// Adds the bytes of pieces, one after the other.
fn add_pieces(to: &mut Vec<u8>, pieces: &[Piece]) -> Result<(), AllocError>
    ensures { OnOk result (to.new.items ≡ to.old.items ++ pieces_in_a_row pieces.now) }
{
    for piece in pieces {
        add_piece(to, piece)?;
    }
    Ok(())
}

/// Adds what an event read.
fn add_read(to: &mut Vec<u8>, kind: &EventKind) -> Result<(), AllocError>
    ensures { OnOk result (to.new.items ≡ to.old.items ++ printed_at (kind_of kind.now)) }
{
    match kind {
        EventKind::Call { ins, .. } => add_pieces(to, ins.as_slice()),
        EventKind::Ret { .. } => Ok(()),
        EventKind::Up { .. } => Ok(()),
        EventKind::UpRet { .. } => Ok(()),
        EventKind::Alloc { .. } => Ok(()),
        EventKind::Free { .. } => Ok(()),
        EventKind::Stop { .. } => Ok(()),
    }
}

fn add_printed(to: &mut Vec<u8>, act: &Act) -> Result<(), AllocError>
    ensures { OnOk result (to.new.items ≡ to.old.items ++ printed (act_of act.now)) }
{
    match act {
        Act::Turn => Ok(()),
        Act::Load { .. } => Ok(()),
        Act::Store { .. } => Ok(()),
        Act::Enter { .. } => Ok(()),
        Act::Leave { .. } => Ok(()),
        Act::Step { .. } => Ok(()),
        Act::Fault { .. } => Ok(()),
        Act::Made(made) => add_read(to, &made.kind),
    }
}

/// Adds what the mark printed, if it stands above the cut and has the key.
fn add_mark(to: &mut Vec<u8>, mark: &Mark, out: Key) -> Result<(), AllocError>
    ensures { OnOk result (to.new.items ≡
        (if same_side mark.now.side Replay && has (mark_of mark.now) (OfKey out)
        then to.old.items ++ printed (act_of mark.now.act) else to.old.items)) }
{
    if is_above(mark) && has(mark, Link::Key(out)) {
        return add_printed(to, &mark.act);
    }
    Ok(())
}

/// What was printed above the cut: the bytes that calls with the key of the output read, in their order.
///
/// `AllocError` where there is no memory.
pub fn replay_output(alloc: Global, marks: &[Mark]) -> Result<Vec<u8>, AllocError>
    ensures { IfOk result (λ bytes. IsOutputOf (past marks.now) bytes.items) }
{
    let mut bytes = Vec::new(alloc);
    let out = Key {
        class: Class::Out,
        value: 0,
    };
    for mark in marks {
        add_mark(&mut bytes, mark, out)?;
    }
    Ok(bytes)
}

/// Adds what a step of the function below the cut printed.
fn add_step(to: &mut Vec<u8>, func: u16, ins: &[Piece]) -> Result<(), AllocError>
    ensures { OnOk result (to.new.items ≡ to.old.items ++ printed_below func ins.now) }
{
    if func == Builtin::Print.number() {
        return add_pieces(to, ins);
    }
    Ok(())
}

fn add_below(to: &mut Vec<u8>, act: &Act) -> Result<(), AllocError>
    ensures { OnOk result (to.new.items ≡ to.old.items ++ act_printed (act_of act.now)) }
{
    match act {
        Act::Turn => Ok(()),
        Act::Load { .. } => Ok(()),
        Act::Store { .. } => Ok(()),
        Act::Enter { .. } => Ok(()),
        Act::Leave { .. } => Ok(()),
        Act::Step { func, ins, .. } => add_step(to, *func, ins.as_slice()),
        Act::Fault { .. } => Ok(()),
        Act::Made(_) => Ok(()),
    }
}

/// What was printed below the cut, in the order of steps.
///
/// `AllocError` where there is no memory.
pub fn system_output(alloc: Global, marks: &[Mark]) -> Result<Vec<u8>, AllocError>
    ensures { IfOk result (λ bytes. bytes.items ≡ system_output (past marks.now)) }
{
    let mut bytes = Vec::new(alloc);
    for mark in marks {
        add_below(&mut bytes, &mark.act)?;
    }
    Ok(bytes)
}

//! The open callbacks of a thread.

ghost use Rattle.std.specs.Prelude.{◌≡◌, ◌&&◌, ◌==◌, if◌then◌else◌, IfOk, OnOk};
ghost use Rattle.marks.specs.declared.side.Side.TheVariants.{Replay};
ghost use Rattle.c_code.specs.MarkLists.{same_side};
ghost use Rattle.marks.specs.Opens.{act_ups, tail, ups_after};
ghost use Rattle.reference_recorder_marks.specs.Marks.{act_of, kind_of, past};
ghost use Rattle.reference_recorder_calls.specs.Mine.{AreOpenUps};

use reference_recorder_marks::{Act, EventKind, Mark, is_above};
use std::alloc::{AllocError, Global};

/// Takes the first one away, if there is one.
fn drop_first(ups: &mut Vec<u16>)
    ensures { ups.new.items ≡ tail ups.old.items }
{
    let count = ups.as_slice().len();
    if count == 0 {
        return;
    }
    ups.remove(0);
}

/// What is open after one event more.
fn event_ups(ups: &mut Vec<u16>, kind: &EventKind) -> Result<(), AllocError>
    ensures { OnOk result (ups.new.items ≡ ups_after (kind_of kind.now) ups.old.items) }
{
    match kind {
        EventKind::Call { .. } => Ok(()),
        EventKind::Ret { .. } => Ok(()),
        EventKind::Up { func, .. } => {
            ups.insert(0, *func)?;
            Ok(())
        }
        EventKind::UpRet { .. } => {
            drop_first(ups);
            Ok(())
        }
        EventKind::Alloc { .. } => Ok(()),
        EventKind::Free { .. } => Ok(()),
        EventKind::Stop { .. } => Ok(()),
    }
}

/// What is open after one mark more.
fn act_ups(ups: &mut Vec<u16>, act: &Act) -> Result<(), AllocError>
    ensures { OnOk result (ups.new.items ≡ act_ups (act_of act.now) ups.old.items) }
{
    match act {
        Act::Turn => Ok(()),
        Act::Load { .. } => Ok(()),
        Act::Store { .. } => Ok(()),
        Act::Enter { .. } => Ok(()),
        Act::Leave { .. } => Ok(()),
        Act::Step { .. } => Ok(()),
        Act::Fault { .. } => Ok(()),
        Act::Made(made) => event_ups(ups, &made.kind),
    }
}

/// What is open in a thread after one mark more.
fn mark_ups(ups: &mut Vec<u16>, mark: &Mark, thread: u8) -> Result<(), AllocError>
    ensures { OnOk result (ups.new.items ≡ (if same_side mark.now.side Replay && mark.now.thread == thread
        then act_ups (act_of mark.now.act) ups.old.items else ups.old.items)) }
{
    if is_above(mark) && mark.thread == thread {
        return act_ups(ups, &mark.act);
    }
    Ok(())
}

/// The functions of the thread's open callbacks, the innermost first.
///
/// `AllocError` where there is no memory.
pub fn open_ups(alloc: Global, marks: &[Mark], thread: u8) -> Result<Vec<u16>, AllocError>
    ensures { IfOk result (λ ups. AreOpenUps (past marks.now) thread ups.items) }
{
    let mut ups = Vec::new(alloc);
    for mark in marks {
        mark_ups(&mut ups, mark, thread)?;
    }
    Ok(ups)
}

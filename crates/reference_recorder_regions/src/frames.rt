//! The frames of a thread on a side after a list of marks.

ghost use Rattle.std.specs.Prelude.{◌≡◌, ◌∷◌, IfOk, OnOk};
ghost use Rattle.marks.specs.Opens.{frames_after, tail};
ghost use Rattle.marks.specs.Ranges.{range};
ghost use Rattle.replay_runs.specs.Threads.{end_of};
ghost use Rattle.whole_runs.specs.World.{World};
ghost use Rattle.whole_runs.specs.Sides.{frames_on};
ghost use Rattle.reference_recorder_marks.specs.Marks.{act_of, mark_of, past};
ghost use Rattle.reference_recorder_regions.specs.Steps.{frames_step, is_own};

use marks::{Range, Side};
use reference_recorder_marks::{Act, Mark, is_above, is_below};
use std::alloc::{AllocError, Global};

/// The frames of the thread on the side after the marks, which stand with the oldest first; of the frames the innermost comes
/// first.
pub fn frames_on(
    alloc: Global,
    marks: &[Mark],
    side: Side,
    thread: u8,
) -> Result<Vec<Range>, AllocError>
    ensures { (w : World) → IfOk result (λ fs. fs.items ≡ frames_on w side thread (past marks.now)) }
{
    let mut frames = Vec::new(alloc);
    for mark in marks {
        note_frame(mark, side, thread, &mut frames)?;
    }
    Ok(frames)
}

// What a mark makes of them.
fn note_frame(
    mark: &Mark,
    side: Side,
    thread: u8,
    frames: &mut Vec<Range>,
) -> Result<(), AllocError>
    ensures { OnOk result (frames.new.items ≡ frames_step side thread (mark_of mark.now) frames.old.items) }
{
    if is_own(mark, side, thread) {
        frames_after(&mark.act, frames)
    } else {
        Ok(())
    }
}

/// Whether the mark is one of the thread on the side.
pub fn is_own(mark: &Mark, side: Side, thread: u8) -> bool
    ensures { result ≡ is_own side thread (mark_of mark.now) }
{
    let here = match side {
        Side::Replay => is_above(mark),
        Side::System => is_below(mark),
    };
    mark.thread == thread && here
}

fn frames_after(act: &Act, frames: &mut Vec<Range>) -> Result<(), AllocError>
    ensures { OnOk result (frames.new.items ≡ frames_after (act_of act.now) frames.old.items) }
{
    match act {
        Act::Turn => Ok(()),
        Act::Load { .. } => Ok(()),
        Act::Store { .. } => Ok(()),
        Act::Enter { at, bytes, .. } => with_frame(*at, bytes.as_slice().len() as u64, frames),
        Act::Leave { .. } => {
            without_first(frames);
            Ok(())
        }
        Act::Step { .. } => Ok(()),
        Act::Fault { .. } => Ok(()),
        Act::Made(_) => Ok(()),
    }
}

fn with_frame(at: u64, size: u64, frames: &mut Vec<Range>) -> Result<(), AllocError>
    ensures { OnOk result (frames.new.items ≡ range at size ∷ frames.old.items) }
{
    frames.insert(
        0,
        Range {
            addr: at,
            len: size,
        },
    )?;
    Ok(())
}

fn without_first(frames: &mut Vec<Range>)
    ensures { frames.new.items ≡ tail frames.old.items }
{
    if !frames.is_empty() {
        frames.remove(0);
    }
}

/// The address after these frames, where the first one lies at `base` if there are none.
pub fn end_of(base: u64, frames: &[Range]) -> u128
    ensures { result ≡ end_of base frames.now }
{
    match frames {
        [] => u128::from(base),
        [frame, ..] => u128::from(frame.addr) + u128::from(frame.len),
    }
}

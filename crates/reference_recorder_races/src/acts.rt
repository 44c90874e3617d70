//! The least byte at which the tested access meets the accesses of a mark.

ghost use Rattle.std.specs.Prelude.{◌≡◌, ◌&&◌, ◌==◌, leb, ◌∷◌, List};
ghost use Rattle.marks.specs.Marks.{Mark as ShownMark};
ghost use Rattle.marks.specs.Bytes.{access_reads, access_writes, event_reads, event_writes, place};
ghost use Rattle.whole_runs.specs.Sides.{seen};
ghost use Rattle.reference_recorder_marks.specs.Marks.{access_of, act_of, kind_of, mark_of, past};
ghost use Rattle.reference_recorder_races.specs.Least.{IsLeastAt};
ghost use Rattle.reference_recorder_races.specs.Hits.{meets, meets_act, meets_any, meets_mark};

use crate::hits::{read, refused};
use crate::least::least;
use crate::lists::{
    held_list, prepared_list, read_bytes, read_list, stopped_list, written_bytes, written_commit,
    written_list, written_part,
};
use crate::tested::Tested;
use marks::Range;
use reference_recorder_marks::{Access, Act, EventKind, Mark, granted, is_above, place};

/// That of an access that a fault stopped.
fn met_access(tested: Tested, stopped: Access) -> Option<u64>
    ensures { IsLeastAt (λ x. meets tested x (access_reads (access_of stopped) x)
        (access_writes (access_of stopped) x)) result }
{
    match stopped {
        Access::Nowhere => None,
        Access::Reading(range) => read(tested, range),
        Access::Writing(range) => refused(tested, range),
        Access::Freeing(at) => refused(tested, Range { addr: at, len: 1 }),
    }
}

/// That of an event.
fn met_event(tested: Tested, kind: &EventKind) -> Option<u64>
    ensures { IsLeastAt (λ x. meets tested x (event_reads (kind_of kind.now) x)
        (event_writes (kind_of kind.now) x)) result }
{
    match kind {
        EventKind::Call {
            ins,
            outs,
            prepared,
            ..
        } => {
            let held = held_list(tested, outs);
            let more = prepared_list(tested, prepared);
            let both = least(held, more);
            let found = read_list(tested, ins);
            least(found, both)
        }
        EventKind::Ret { outs, commit, .. } => {
            let brought = written_list(tested, outs);
            let freed = written_commit(tested, commit);
            least(brought, freed)
        }
        EventKind::Up { .. } => None,
        EventKind::UpRet { .. } => None,
        EventKind::Alloc { at, size } => {
            let len = granted(*at, *size);
            written_part(tested, *at, len)
        }
        EventKind::Free { at, size } => written_part(tested, *at, *size),
        EventKind::Stop { .. } => None,
    }
}

/// That of a mark, whatever its thread.
fn met_act(tested: Tested, act: &Act) -> Option<u64>
    ensures { IsLeastAt (meets_act tested (act_of act.now)) result }
{
    match act {
        Act::Turn => None,
        Act::Load { at, bytes, .. } => read_bytes(tested, *at, bytes),
        Act::Store { at, bytes, .. } => written_bytes(tested, *at, bytes),
        Act::Enter { at, bytes, .. } => written_bytes(tested, *at, bytes),
        Act::Leave { at, size } => written_part(tested, *at, *size),
        Act::Step { .. } => None,
        Act::Fault {
            ins,
            outs,
            access,
            ..
        } => {
            let held = held_list(tested, outs);
            let stopped = met_access(tested, *access);
            let both = least(held, stopped);
            let found = stopped_list(tested, ins);
            least(found, both)
        }
        Act::Made(made) => met_event(tested, &made.kind),
    }
}

/// Whether the mark is one of the thread that isn't known.
fn is_unknown(one: &Mark, other: u8, known: u64) -> bool
    ensures { result ≡ (one.now.thread == other && leb known (place (mark_of one.now))) }
{
    one.thread == other && known <= place(one)
}

/// That of a mark of the thread, of whose events so many are known.
fn met_mark(tested: Tested, one: &Mark, other: u8, known: u64) -> Option<u64>
    ensures { IsLeastAt (meets_mark tested other known (mark_of one.now)) result }
{
    if is_unknown(one, other, known) {
        return met_act(tested, &one.act);
    }
    None
}

/// That of marks above the cut, one mark on.
fn met_after(best: Option<u64>, tested: Tested, one: &Mark, other: u8, known: u64) -> Option<u64>
    ensures { (before : List ShownMark) → IsLeastAt (meets_any tested other known (seen before)) best →
        IsLeastAt (meets_any tested other known (seen (mark_of one.now ∷ before))) result }
{
    if is_above(one) {
        let found = met_mark(tested, one, other, known);
        return least(found, best);
    }
    best
}

/// That of the marks of the thread above the cut, of whose events so many are known.
pub fn first_met(tested: Tested, marks: &[Mark], other: u8, known: u64) -> Option<u64>
    ensures { IsLeastAt (meets_any tested other known (seen (past marks.now))) result }
{
    let mut best = None;
    for one in marks {
        best = met_after(best, tested, one, other, known);
    }
    best
}

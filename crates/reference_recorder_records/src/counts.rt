//! How many events there are, and how many bytes their records have.

ghost use Rattle.std.specs.Prelude.{◌≡◌, ◌+◌, ◌<◌, ◌^◌, if◌then◌else◌, length, IfOk};
ghost use Rattle.marks.specs.Marks.{is_event};
ghost use Rattle.whole_runs.specs.Ends.{bytes_of, events_of};
ghost use Rattle.whole_runs.specs.Records.{size_of};
ghost use Rattle.reference_recorder_marks.specs.Marks.{act_of, mark_of, past};
ghost use Rattle.reference_recorder_records.specs.Recordable.{AreRecordable, IsRecordable};

use crate::records::size_of;
use reference_recorder_marks::{Mark, is_event};
use std::alloc::{AllocError, Global};

/// How many events there are, one mark on.
fn events_after(number: u32, mark: &Mark) -> u32
    requires { number + 1 < 2 ^ 32 }
    ensures { result ≡ (if is_event (act_of mark.now.act) then number + 1 else number) }
{
    if is_event(&mark.act) {
        number + 1
    } else {
        number
    }
}

/// How many of the marks are events.
pub fn events(marks: &[Mark]) -> u32
    requires { length marks.now + 1 < 2 ^ 32 }
    ensures { result ≡ length (events_of (past marks.now)) }
{
    let mut number = 0;
    for mark in marks {
        number = events_after(number, mark);
    }
    number
}

/// The bytes that a run counts for the mark: those of an event.
fn bytes_at(alloc: Global, mark: &Mark) -> Result<u64, AllocError>
    requires { IsRecordable mark.now }
    ensures size { IfOk result (λ n. n ≡
        (if is_event (act_of mark.now.act) then size_of (mark_of mark.now) else 0)) }
    ensures small { IfOk result (λ n. n < 2 ^ 40) }
{
    if is_event(&mark.act) {
        return size_of(alloc, mark);
    }
    Ok(0)
}

/// The bytes of the records of all events, a return counted in full.
///
/// `AllocError` where there is no memory.
pub fn bytes(alloc: Global, marks: &[Mark]) -> Result<u64, AllocError>
    requires few { length (events_of (past marks.now)) < 2 ^ 23 }
    requires form { AreRecordable marks.now }
    ensures { IfOk result (λ n. n ≡ bytes_of (past marks.now)) }
{
    let mut total = 0;
    for mark in marks {
        let more = bytes_at(alloc, mark)?;
        total += more;
    }
    Ok(total)
}

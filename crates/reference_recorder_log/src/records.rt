//! The records of each thread.

ghost use Rattle.std.specs.Prelude.{◌≡◌, ◌++◌, ◌∷◌, [], if◌then◌else◌, IfOk, OnOk};
ghost use Rattle.replay_runs.specs.Runs.{OfThread, has};
ghost use Rattle.whole_runs.specs.Records.{full_record};
ghost use Rattle.reference_recorder_marks.specs.Marks.{mark_of, past};
ghost use Rattle.reference_recorder_log.specs.Records.{AreRecordsOf, records_of};

use call_inspector_run::{Records, Threads};
use reference_recorder_marks::Mark;
use reference_recorder_records::full_record;
use reference_recorder_stamps::{Link, has};
use run_events::Record;
use std::alloc::{AllocError, Global};

/// Adds the record of the mark, if it is an event of the thread.
fn add_record(
    alloc: Global,
    records: &mut Vec<Record>,
    mark: &Mark,
    thread: u8,
) -> Result<(), AllocError>
    ensures { OnOk result (records.new.items ≡ (if has (mark_of mark.now) (OfThread thread)
        then records.old.items ++ full_record (mark_of mark.now) ∷ [] else records.old.items)) }
{
    if has(mark, Link::Thread(thread)) {
        let entry = full_record(alloc, mark)?;
        records.push(entry)?;
    }
    Ok(())
}

/// The records of the thread's events, the oldest first, in which a return has its full values.
///
/// `AllocError` where there is no memory.
pub fn thread_records(alloc: Global, marks: &[Mark], thread: u8) -> Result<Vec<Record>, AllocError>
    ensures { IfOk result (λ records. records.items ≡ records_of (past marks.now) thread) }
{
    let mut records = Vec::new(alloc);
    for mark in marks {
        add_record(alloc, &mut records, mark, thread)?;
    }
    Ok(records)
}

/// Those of each thread, by its number.
pub fn all_records(alloc: Global, marks: &[Mark]) -> Result<Threads, AllocError>
    ensures { IfOk result (AreRecordsOf (past marks.now)) }
{
    let mut threads = Vec::new(alloc);
    for thread in 0..32 {
        let records = thread_records(alloc, marks, thread)?;
        let entry = Records::from(records);
        threads.push(entry)?;
    }
    let all = Threads::from(threads);
    Ok(all)
}

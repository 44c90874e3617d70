//! The log of a run.

ghost use Rattle.std.specs.Prelude.{◌≡◌, ◌+◌, ◌<◌, ◌≤◌, ◌^◌, ◌++◌, ◌∷◌, List, [], true, length, take};
ghost use Rattle.std.specs.Prelude.{IfOk, OnOk};
ghost use Rattle.marks.specs.Marks.{Mark as ShownMark, is_event};
ghost use Rattle.recorder_book.specs.Chunks.{chunks_text, rest, rests};
ghost use Rattle.reference_recorder_marks.specs.Marks.{act_of, mark_of, past};
ghost use Rattle.reference_recorder_records.specs.Recordable.{AreRecordable};
ghost use Rattle.reference_recorder_log.specs.Logs.{HasChunks, IsPutNext};
ghost use Rattle.reference_recorder_log.specs.Records.{IsLogOf, all_of, records_of};

use crate::chunks::{put_filled, put_rest};
use crate::records::thread_records;
use log_codec::{put_end, put_head};
use reference_recorder_marks::{Mark, is_event};
use reference_recorder_records::events;
use std::alloc::{AllocError, Global};

/// Puts out the chunk that is full with the last mark, which is an event, if one is.
fn put_event(
    alloc: Global,
    log: &mut Vec<u8>,
    chunk: u16,
    marks: &[Mark],
    last: &Mark,
) -> Result<(), AllocError>
    requires chunk { 1 ≤ chunk }
    requires last { (before : List ShownMark) × (past marks.now ≡ mark_of last.now ∷ before) }
    requires form { AreRecordable marks.now }
    requires made { is_event (act_of last.now.act) ≡ true }
    ensures { OnOk result (IsPutNext chunk (past marks.now) (mark_of last.now) log.old.items log.new.items) }
{
    let records = thread_records(alloc, marks, last.thread)?;
    put_filled(log, last.thread, chunk, &records)?;
    Ok(())
}

/// The same of any mark: one that is no event fills none.
fn put_new(
    alloc: Global,
    log: &mut Vec<u8>,
    chunk: u16,
    marks: &[Mark],
    last: &Mark,
) -> Result<(), AllocError>
    requires chunk { 1 ≤ chunk }
    requires last { (before : List ShownMark) × (past marks.now ≡ mark_of last.now ∷ before) }
    requires form { AreRecordable marks.now }
    ensures { OnOk result (IsPutNext chunk (past marks.now) (mark_of last.now) log.old.items log.new.items) }
{
    if is_event(&last.act) {
        return put_event(alloc, log, chunk, marks, last);
    }
    Ok(())
}

/// The first of the marks, so many of them.
fn prefix(marks: &[Mark], count: usize) -> &[Mark]
    requires { count ≤ length marks.now }
    ensures { result.now ≡ take count marks.now }
{
    &marks[..count]
}

/// Puts out each chunk that is full with an event, in the order of events.
fn put_chunks(
    alloc: Global,
    log: &mut Vec<u8>,
    chunk: u16,
    marks: &[Mark],
) -> Result<(), AllocError>
    requires chunk { 1 ≤ chunk }
    requires form { AreRecordable marks.now }
    requires begins { HasChunks chunk [] log.old.items }
    ensures { OnOk result (HasChunks chunk (past marks.now) log.new.items) }
{
    for at in 0..marks.len() {
        let now = prefix(marks, at + 1);
        let last = &marks[at];
        put_new(alloc, log, chunk, now, last)?;
    }
    Ok(())
}

/// Puts out what a thread kept back.
fn put_thread(
    alloc: Global,
    log: &mut Vec<u8>,
    chunk: u16,
    marks: &[Mark],
    thread: u8,
) -> Result<(), AllocError>
    requires chunk { 1 ≤ chunk }
    requires form { AreRecordable marks.now }
    ensures { OnOk result (log.new.items ≡ log.old.items ++
        chunks_text (rest chunk thread (records_of (past marks.now) thread))) }
{
    let records = thread_records(alloc, marks, thread)?;
    put_rest(log, thread, chunk, &records)?;
    Ok(())
}

/// Puts out what each thread kept back, in the order of threads.
fn put_rests(alloc: Global, log: &mut Vec<u8>, chunk: u16, marks: &[Mark]) -> Result<(), AllocError>
    requires chunk { 1 ≤ chunk }
    requires form { AreRecordable marks.now }
    ensures { OnOk result (log.new.items ≡ log.old.items ++
        chunks_text (rests chunk 0 (all_of (past marks.now)))) }
{
    for thread in 0..32 {
        put_thread(alloc, log, chunk, marks, thread)?;
    }
    Ok(())
}

/// The bytes of the log of a run in which so many records of a thread make a chunk.
///
/// `AllocError` where there is no memory.
pub fn log_of(alloc: Global, chunk: u16, marks: &[Mark]) -> Result<Vec<u8>, AllocError>
    requires chunk { 1 ≤ chunk }
    requires few { length marks.now + 1 < 2 ^ 32 }
    requires form { AreRecordable marks.now }
    ensures { IfOk result (λ log. IsLogOf chunk (past marks.now) log.items) }
{
    let mut log = Vec::new(alloc);
    put_head(&mut log)?;
    put_chunks(alloc, &mut log, chunk, marks)?;
    put_rests(alloc, &mut log, chunk, marks)?;
    let total = events(marks);
    put_end(&mut log, total)?;
    Ok(log)
}

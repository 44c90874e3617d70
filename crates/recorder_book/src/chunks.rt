//! What the records of one thread put into the log.

ghost use Rattle.std.specs.Prelude.{◌≡◌, ◌+◌, ◌≤◌, ◌<◌, ◌^◌, ◌++◌, ◌∷◌, [], List, length, OnOk, OnErr};
ghost use Rattle.std.specs.List.{AllByRecursion};
ghost use Rattle.run_events.specs.declared.event.Record.{Record};
ghost use Rattle.marks.specs.Places.{thread_count};
ghost use Rattle.log_codec.specs.LogText.{IsChunk};
ghost use Rattle.log_codec.specs.Putting.{log_chunk};
ghost use Rattle.recorder_book.specs.Chunks.{AreKept, IsRecordOf, chunks_text, filled, last_of, rest, rests};

use call_inspector_run::Records;
use log_codec::put_chunk;
use run_events::Record;
use std::alloc::AllocError;

/// Puts the last of a thread's records, so many of them, into the log as one chunk. Without memory nothing is put.
fn put_last(
    log: &mut Vec<u8>,
    thread: u8,
    count: usize,
    records: &[Record],
) -> Result<(), AllocError>
    requires count { count ≤ length records.now }
    requires chunk { IsChunk (log_chunk (last_of thread count records.now)) }
    ensures ok { OnOk result (log.new.items ≡ log.old.items ++
        chunks_text (last_of thread count records.now ∷ [])) }
    ensures err { OnErr result (log.new.items ≡ log.old.items) }
{
    put_chunk(log, thread, &records[records.len() - count..])
}

/// Puts the last `chunk` of a thread's records, one or more, into the log, where they number a multiple of it.
fn put_filled(
    log: &mut Vec<u8>,
    thread: u8,
    chunk: u16,
    records: &[Record],
) -> Result<(), AllocError>
    requires chunk { 1 ≤ chunk }
    requires some { 1 ≤ length records.now }
    requires records { AllByRecursion (IsRecordOf thread) records.now }
    ensures ok { OnOk result (log.new.items ≡ log.old.items ++
        chunks_text (filled chunk thread records.now)) }
    ensures err { OnErr result (log.new.items ≡ log.old.items) }
{
    if records.len() % chunk as usize != 0 {
        return Ok(());
    }
    put_last(log, thread, chunk as usize, records)
}

/// Adds a record to those of its thread. Where they then number a multiple of `chunk`, the last `chunk` of them are put into
/// the log. Without memory nothing is added.
#[inline(always)]
pub fn add_record(
    log: &mut Vec<u8>,
    records: &mut Records,
    chunk: u16,
    entry: Record,
) -> Result<(), AllocError>
    requires chunk { 1 ≤ chunk }
    requires records { AllByRecursion (IsRecordOf entry.thread) records.old }
    requires entry { IsRecordOf entry.thread entry }
    ensures records { OnOk result (records.new ≡ records.old ++ entry ∷ []) }
    ensures log { OnOk result (log.new.items ≡ log.old.items ++
        chunks_text (filled chunk entry.thread records.new)) }
    ensures same_records { OnErr result (records.new ≡ records.old) }
    ensures same_log { OnErr result (log.new.items ≡ log.old.items) }
{
    let thread = entry.thread;
    let count = records.as_slice().len();
    records.push(entry)?;
    let put = put_filled(log, thread, chunk, records.as_slice());
    if put.is_err() {
        records.truncate(count);
    }
    put
}

/// Puts into the log what a thread kept back, if anything.
fn put_rest(log: &mut Vec<u8>, thread: u8, chunk: u16, records: &[Record]) -> Result<(), AllocError>
    requires chunk { 1 ≤ chunk }
    requires records { AllByRecursion (IsRecordOf thread) records.now }
    ensures { OnOk result (log.new.items ≡ log.old.items ++
        chunks_text (rest chunk thread records.now)) }
{
    let kept = records.len() % chunk as usize;
    if kept == 0 {
        return Ok(());
    }
    put_last(log, thread, kept, records)
}

/// Puts into the log what each thread kept back, in the order of threads.
pub fn put_rests(log: &mut Vec<u8>, chunk: u16, threads: &[Records]) -> Result<(), AllocError>
    requires chunk { 1 ≤ chunk }
    requires count { length threads.now ≤ thread_count }
    requires records { AreKept threads.now }
    ensures { OnOk result (log.new.items ≡ log.old.items ++
        chunks_text (rests chunk 0 threads.now)) }
{
    for thread in 0..threads.len() {
        put_rest(log, thread as u8, chunk, threads[thread].as_slice())?;
    }
    Ok(())
}

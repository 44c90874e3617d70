//! The chunks of a thread's records in a log.

ghost use Rattle.std.specs.Prelude.{◌≡◌, ◌≤◌, ◌++◌, ◌∷◌, [], length, OnOk};
ghost use Rattle.std.specs.List.{AllByRecursion};
ghost use Rattle.log_codec.specs.LogText.{IsChunk};
ghost use Rattle.log_codec.specs.Putting.{log_chunk};
ghost use Rattle.recorder_book.specs.Chunks.{IsRecordOf, chunks_text, filled, last_of, rest};

use log_codec::put_chunk;
use run_events::Record;
use std::alloc::AllocError;

/// Puts the last of a thread's records, so many of them, into the log as one chunk.
fn put_last(
    log: &mut Vec<u8>,
    thread: u8,
    count: usize,
    records: &[Record],
) -> Result<(), AllocError>
    requires count { count ≤ length records.now }
    requires chunk { IsChunk (log_chunk (last_of thread count records.now)) }
    ensures { OnOk result (log.new.items ≡ log.old.items ++
        chunks_text (last_of thread count records.now ∷ [])) }
{
    put_chunk(log, thread, &records[records.len() - count..])
}

/// Puts the last `chunk` of a thread's records, one or more, into the log, where they number a multiple of it.
pub fn put_filled(
    log: &mut Vec<u8>,
    thread: u8,
    chunk: u16,
    records: &[Record],
) -> Result<(), AllocError>
    requires chunk { 1 ≤ chunk }
    requires some { 1 ≤ length records.now }
    requires records { AllByRecursion (IsRecordOf thread) records.now }
    ensures { OnOk result (log.new.items ≡ log.old.items ++
        chunks_text (filled chunk thread records.now)) }
{
    if records.len() % chunk as usize != 0 {
        return Ok(());
    }
    put_last(log, thread, chunk as usize, records)
}

/// Puts into the log what a thread kept back, if anything.
pub fn put_rest(
    log: &mut Vec<u8>,
    thread: u8,
    chunk: u16,
    records: &[Record],
) -> Result<(), AllocError>
    requires chunk { 1 ≤ chunk }
    requires records { AllByRecursion (IsRecordOf thread) records.now }
    ensures { OnOk result (log.new.items ≡ log.old.items ++
        chunks_text (rest chunk thread records.now)) }
{
    let kept = records.len() % chunk as usize;
    if kept == 0 {
        return Ok(());
    }
    put_last(log, thread, kept, records)
}

//! The book: records by thread, their count and bytes, and the log.

ghost use Rattle.std.specs.Prelude.{◌≡◌, ◌+◌, ◌≤◌, ◌<◌, ◌^◌, ℕ, List, [], replicate, IfOk, OnOk, OnErr};
ghost use Rattle.run_events.specs.declared.event.Record.{Record};
ghost use Rattle.marks.specs.Places.{thread_count};
ghost use Rattle.recorder_book.specs.Sizes.{IsInFull};
ghost use Rattle.recorder_book.specs.Book.{Adds, Begins, GivesLog, GivesRecords, GivesRecordsOf, IsRoomAfter};

use crate::chunks::{add_record, put_rests};
use crate::room::Room;
use crate::sizes::record_size;
use call_inspector_run::{Records, Threads};
use log_codec::{put_end, put_head};
use run_events::{Bytes, Record};
use std::alloc::{AllocError, Global};
use std::marker::Model;

/// A run makes no more events.
const MOST_EVENTS: u32 = 1_000_000;
/// Their records have no more bytes.
const MOST_BYTES: u64 = 50_331_648;
/// A run has so many threads at most.
const THREADS: usize = 32;

/// What is kept of the events of a run while it is recorded.
#[derive(Drop)]
pub struct Book {
    /// A thread puts its records out as one chunk when they number so many.
    chunk: u16,
    events: u32,
    /// Of all records, a return counted in full.
    bytes: u64,
    log: Vec<u8>,
    /// By thread, with the records that were put out.
    threads: Vec<Records>,
}

impl Model for Book {
    ghost use Rattle.recorder_book.specs.Book.{BookState, IsSound};

    ghost Value = { BookState };

    ghost view = { λ b. record {
      chunk = b.chunk;
      events = b.events;
      bytes = b.bytes;
      log = b.log.items;
      threads = b.threads.items;
    } };

    ghost invariant = { λ b. IsSound (record {
      chunk = b.chunk;
      events = b.events;
      bytes = b.bytes;
      log = b.log.items;
      threads = b.threads.items;
    }) };
}

/// What a recording leaves: its log, and the events of each thread, in which a return has its full values.
#[derive(Drop)]
pub struct Finished {
    pub log: Bytes,
    pub threads: Threads,
}

/// A thread without events for each number of a thread.
fn no_records(alloc: Global) -> Result<Vec<Records>, AllocError>
    ensures { IfOk result (λ threads. threads.items ≡ replicate thread_count []) }
{
    let mut threads = Vec::with_capacity(alloc, THREADS)?;
    for _ in 0..THREADS {
        threads.push(Records::new(alloc))?;
    }
    Ok(threads)
}

impl Book {
    /// Before any event of a run whose threads put so many records into a chunk.
    pub fn new(alloc: Global, chunk: u16) -> Result<Book, AllocError>
        requires { 1 ≤ chunk }
        ensures { IfOk result (λ book. Begins chunk book) }
    {
        let threads = no_records(alloc)?;
        let mut log = Vec::new(alloc);
        put_head(&mut log)?;
        Ok(Book {
            chunk,
            events: 0,
            bytes: 0,
            log,
            threads,
        })
    }

    /// Whether there is room for an event whose record has so many bytes, a return counted in full. The number of events
    /// is looked at before their bytes.
    pub fn room(&self, size: u64) -> Room
        ensures { IsRoomAfter self.now size result }
    {
        if self.events >= MOST_EVENTS {
            return Room::Events;
        }
        if size > MOST_BYTES || self.bytes > MOST_BYTES - size {
            return Room::Full;
        }
        Room::Free
    }

    /// Adds the record of an event, in which a return has its full values also where it repeats the one before. Where its
    /// thread's records then number a multiple of the chunk's, the last of them are put into the log.
    ///
    /// Room isn't looked for here: Stops come after the last step whatever room there is. `AllocError` where there is no
    /// memory; the book is as it was then.
    #[inline(always)]
    pub fn add(&mut self, entry: Record) -> Result<(), AllocError>
        requires form { IsInFull entry }
        requires few { self.old.events < 4000000000 }
        requires short { self.old.bytes < 2 ^ 63 }
        ensures added { OnOk result (Adds entry self.old self.new) }
        ensures unchanged { OnErr result (self.new ≡ self.old) }
    {
        let size = record_size(&entry);
        let thread = entry.thread as usize;
        let records = &mut self.threads[thread];
        add_record(&mut self.log, records, self.chunk, entry)?;
        self.events += 1;
        self.bytes += size;
        Ok(())
    }

    /// The records of the thread's events, the oldest first, in which a return has its full values.
    pub fn records(&self, thread: u8) -> &[Record]
        requires { thread < thread_count }
        ensures { GivesRecordsOf self.now thread result.now }
    {
        self.threads[thread as usize].as_slice()
    }

    /// Puts out what each thread kept back, in the order of threads, and the end of the log.
    pub fn finish(self) -> Result<Finished, AllocError>
        ensures log { IfOk result (λ f. GivesLog self f.log) }
        ensures records { IfOk result (λ f. GivesRecords self f.threads) }
    {
        let Book {
            chunk,
            events,
            bytes: _,
            log,
            threads,
        } = self;
        let mut log = log;
        put_rests(&mut log, chunk, &threads)?;
        put_end(&mut log, events)?;
        Ok(Finished {
            log: Bytes::from(log),
            threads: Threads::from(threads),
        })
    }
}

//! By thread and byte, one more than the place of the last read, and of the last write.

ghost use Rattle.std.specs.Prelude.{◌≡◌, ◌+◌, ◌-◌, ◌*◌, ◌<◌, ◌≤◌, ◌≢◌, ◌&&◌, ℕ, Bool, true, false, length, IfOk, IfErr, OnOk, OnErr, IsTrue, IsFalse, Some};
ghost use Rattle.std.specs.List.{All};
ghost use Rattle.memory_map.specs.declared.areas.TheConstants.{THREADS};
ghost use Rattle.race_watch.specs.Cells.{IsPart, IsFew, EachIn, base_of, cell_of};
ghost use Rattle.race_watch.specs.declared.bytes.TheConstants.{GLOBALS, STACKS, POOL};
ghost use Rattle.race_watch.specs.Tables.{at, entry, cells_of, AreTables, AreBlankTables, HasEpoch, HasEpochIn, NoneUnknown, IsPut, IsFirst, IsFirstFrom, IsFirstThread};

use crate::bytes::{Bytes, GLOBALS, POOL, STACKS, common, few, whole};
use crate::error::WatchError;
use crate::first::Tested;
use race_watch_pages::Pages;
use std::alloc::{AllocError, Global};

/// By thread and byte, one more than the place of the last read, and of the last write; 0 where there is none. The last
/// access is the greater, so a byte that a thread only reads, or only writes, takes one number.
#[derive(Drop)]
pub struct Tables {
    pub threads: u8,
    /// Threads from this number on made no access.
    pub used: u8,
    pub epochs: Pages,
}

/// The first cell of a thread's writes, or of its reads.
#[inline(always)]
fn base(thread: u8, read: bool) -> u32
    requires { thread < 32 }
    ensures { result ≡ base_of thread read }
{
    let kind = if read { 1 } else { 0 };
    (u32::from(thread) * 2 + kind) * 0x40_0000
}

impl Tables {
    /// Zeros.
    pub fn new(alloc: Global, threads: u8) -> Result<Tables, AllocError>
        requires { threads ≤ THREADS }
        ensures { IfOk result (AreBlankTables threads) }
    {
        let epochs = Pages::new(alloc, u32::from(threads) * 0x8000)?;
        Ok(Tables {
            threads,
            used: 0,
            epochs,
        })
    }

    /// Whether each of the bytes is seen to have this epoch, of the thread's reads or of its writes.
    #[inline(always)]
    fn has_all(&self, thread: u8, read: bool, part: Bytes, epoch: u32) -> bool
        requires tables { AreTables self.now }
        requires thread { thread < self.now.threads }
        requires part { IsPart part }
        ensures { IsTrue result → EachIn part (λ x. entry self.now read thread x ≡ epoch) }
    {
        let from = base(thread, read) + part.cell;
        self.epochs
            .is_all(from, from + (part.to - part.from) as u32, epoch)
    }

    /// Whether each of the bytes is seen to have this epoch, which no access of the thread exceeds.
    #[inline(always)]
    pub fn is_all(&self, thread: u8, touched: bool, part: Bytes, epoch: u32) -> bool
        requires tables { AreTables self.now }
        requires thread { thread < self.now.threads }
        requires part { IsPart part }
        requires before { (x : ℕ) → at self.now true thread x ≤ epoch }
        ensures { IsTrue result → EachIn part (λ x. at self.now touched thread x ≡ epoch) }
    {
        if touched && self.has_all(thread, true, part, epoch) {
            return true;
        }
        self.has_all(thread, false, part, epoch)
    }

    /// Whether each of a few bytes is seen to have this epoch, of the thread's reads or of its writes.
    #[inline(always)]
    fn has_all_of_few(&self, thread: u8, read: bool, part: Bytes, epoch: u32) -> bool
        requires tables { AreTables self.now }
        requires thread { thread < self.now.threads }
        requires part { IsPart part }
        requires few { IsFew part }
        ensures { IsTrue result → EachIn part (λ x. entry self.now read thread x ≡ epoch) }
    {
        let from = base(thread, read) + part.cell;
        self.epochs
            .is_all_of_few(from, (part.to - part.from) as u32, epoch)
    }

    /// Whether each of a few bytes is seen to have this epoch, which no access of the thread exceeds.
    #[inline(always)]
    pub fn is_all_of_few(&self, thread: u8, touched: bool, part: Bytes, epoch: u32) -> bool
        requires tables { AreTables self.now }
        requires thread { thread < self.now.threads }
        requires part { IsPart part }
        requires few { IsFew part }
        requires before { (x : ℕ) → at self.now true thread x ≤ epoch }
        ensures { IsTrue result → EachIn part (λ x. at self.now touched thread x ≡ epoch) }
    {
        if self.has_all_of_few(thread, false, part, epoch) {
            return true;
        }
        touched && self.has_all_of_few(thread, true, part, epoch)
    }

    /// Whether the thread is seen to have no later access of the bytes that counts.
    fn is_known(&self, thread: u8, touched: bool, part: Bytes, known: u32) -> bool
        requires tables { AreTables self.now }
        requires thread { thread < self.now.threads }
        requires part { IsPart part }
        ensures { IsTrue result → EachIn part (λ x. at self.now touched thread x ≤ known) }
    {
        let len = (part.to - part.from) as u32;
        let wrote = base(thread, false) + part.cell;
        if !self.epochs.is_at_most(wrote, wrote + len, known) {
            return false;
        }
        if !touched {
            return true;
        }
        let read = base(thread, true) + part.cell;
        self.epochs.is_at_most(read, read + len, known)
    }

    /// Whether the thread is seen to have no later access of a few bytes that counts.
    #[inline(always)]
    fn is_known_of_few(&self, thread: u8, touched: bool, part: Bytes, known: u32) -> bool
        requires tables { AreTables self.now }
        requires thread { thread < self.now.threads }
        requires part { IsPart part }
        requires few { IsFew part }
        ensures { IsTrue result → EachIn part (λ x. at self.now touched thread x ≤ known) }
    {
        let len = (part.to - part.from) as u32;
        let wrote = base(thread, false) + part.cell;
        if !self.epochs.is_at_most_of_few(wrote, len, known) {
            return false;
        }
        if !touched {
            return true;
        }
        let read = base(thread, true) + part.cell;
        self.epochs.is_at_most_of_few(read, len, known)
    }

    /// Whether no other thread is seen to have an access of one of the bytes that isn't known and counts.
    fn is_quiet(&self, tested: &Tested, part: Bytes) -> bool
        requires tables { AreTables self.now }
        requires known { self.now.threads ≤ length tested.now.known.now }
        requires part { IsPart part }
        ensures { IsTrue result → NoneUnknown tested.now (at self.now) part }
    {
        for thread in 0..self.used {
            if thread != tested.thread {
                let known = tested.known[thread as usize];
                if !self.is_known(thread, tested.write, part, known) {
                    return false;
                }
            }
        }
        true
    }

    /// Whether no other thread is seen to have made an access.
    #[inline(always)]
    fn is_alone(&self, thread: u8) -> bool
        requires { AreTables self.now }
        ensures { IsTrue result → (touched : Bool) (u x : ℕ) → u ≢ thread → at self.now touched u x ≡ 0 }
    {
        thread == 0 && self.used <= 1
    }

    /// Whether no other thread is seen to have an access of one of a few bytes that isn't known and counts.
    #[inline(always)]
    pub fn is_quiet_of_few(&self, tested: &Tested, part: Bytes) -> bool
        requires tables { AreTables self.now }
        requires known { self.now.threads ≤ length tested.now.known.now }
        requires part { IsPart part }
        requires few { IsFew part }
        ensures { IsTrue result → NoneUnknown tested.now (at self.now) part }
    {
        if self.is_alone(tested.thread) {
            return true;
        }
        for thread in 0..self.used {
            if thread != tested.thread {
                let known = tested.known[thread as usize];
                if !self.is_known_of_few(thread, tested.write, part, known) {
                    return false;
                }
            }
        }
        true
    }

    /// The epoch of a byte, of the thread's last access of it or of its last write.
    fn last(&self, thread: u8, touched: bool, cell: u32) -> u32
        requires tables { AreTables self.now }
        requires thread { thread < self.now.threads }
        requires cell { cell < 0x40_0000 }
        ensures { (x : ℕ) → cell_of x ≡ Some cell → result ≡ at self.now touched thread x }
    {
        let wrote = self.epochs.get(base(thread, false) + cell);
        if !touched {
            return wrote;
        }
        let read = self.epochs.get(base(thread, true) + cell);
        read.max(wrote)
    }

    /// The least thread with an access of the byte that isn't known and counts.
    fn first_at(&self, tested: &Tested, cell: u32) -> Option<u8>
        requires tables { AreTables self.now }
        requires known { self.now.threads ≤ length tested.now.known.now }
        requires cell { cell < 0x40_0000 }
        ensures { (x : ℕ) → cell_of x ≡ Some cell →
            IsFirstThread (λ u. HasEpoch tested.now (at self.now) x u) result }
    {
        for thread in 0..self.used {
            let epoch = self.last(thread, tested.write, cell);
            if thread != tested.thread && tested.known[thread as usize] < epoch {
                return Some(thread);
            }
        }
        None
    }

    /// The least of the bytes that another thread has such an access of, and its least thread.
    fn first_in(&self, tested: &Tested, part: Bytes) -> Option<(u64, u8)>
        requires tables { AreTables self.now }
        requires known { self.now.threads ≤ length tested.now.known.now }
        requires part { IsPart part }
        ensures { IsFirstFrom part.from part.to (HasEpoch tested.now (at self.now)) result }
    {
        if self.is_quiet(tested, part) {
            return None;
        }
        for addr in part.from..part.to {
            if let Some(other) = self.first_at(tested, part.cell + (addr - part.from) as u32) {
                return Some((addr, other));
            }
        }
        None
    }

    /// The same of an area's bytes of the range.
    fn first_of(&self, tested: &Tested, area: Bytes) -> Option<(u64, u8)>
        requires tables { AreTables self.now }
        requires known { self.now.threads ≤ length tested.now.known.now }
        requires area { IsPart area }
        requires small { area.to ≤ 0x4000_0000 }
        ensures { IsFirst tested.now.range (HasEpochIn tested.now (at self.now) area) result }
    {
        match common(tested.range, area) {
            None => None,
            Some(part) => self.first_in(tested, part),
        }
    }

    /// The least byte of the range that another thread has an access of that isn't known and counts, and the least thread
    /// of these.
    pub fn first(&self, tested: &Tested) -> Option<(u64, u8)>
        requires tables { AreTables self.now }
        requires known { self.now.threads ≤ length tested.now.known.now }
        ensures { IsFirst tested.now.range (HasEpoch tested.now (at self.now)) result }
    {
        if let Some(part) = few(tested.range) {
            if self.is_quiet_of_few(tested, part) {
                return None;
            }
        }
        match whole(tested.range) {
            Some(part) => self.first_in(tested, part),
            None => self.first_apart(tested),
        }
    }

    /// The same of a range that doesn't lie in one area.
    fn first_apart(&self, tested: &Tested) -> Option<(u64, u8)>
        requires tables { AreTables self.now }
        requires known { self.now.threads ≤ length tested.now.known.now }
        ensures { IsFirst tested.now.range (HasEpoch tested.now (at self.now)) result }
    {
        if let Some(found) = self.first_of(tested, GLOBALS) {
            return Some(found);
        }
        if let Some(found) = self.first_of(tested, STACKS) {
            return Some(found);
        }
        self.first_of(tested, POOL)
    }

    /// Notes a few bytes as read or written by the thread, no earlier than any access of it, where there is a place for each.
    #[inline(always)]
    pub fn put_few(&mut self, thread: u8, part: Bytes, write: bool, epoch: u32) -> bool
        requires tables { AreTables self.old }
        requires thread { thread < self.old.threads }
        requires part { IsPart part }
        requires few { IsFew part }
        requires before { (x : ℕ) → at self.old true thread x ≤ epoch }
        ensures tables { AreTables self.new }
        ensures threads { self.new.threads ≡ self.old.threads }
        ensures put { IsTrue result → IsPut part thread write epoch (at self.old) (at self.new) }
        ensures unchanged { IsFalse result → self.new ≡ self.old }
    {
        let from = base(thread, !write) + part.cell;
        let len = (part.to - part.from) as u32;
        if !self.epochs.fill_few(from, len, epoch) {
            return false;
        }
        self.used = self.used.max(thread + 1);
        true
    }

    /// Notes the bytes as read or written by the thread, no earlier than any access of it.
    pub fn put(
        &mut self,
        thread: u8,
        part: Bytes,
        write: bool,
        epoch: u32,
    ) -> Result<(), WatchError>
        requires tables { AreTables self.old }
        requires thread { thread < self.old.threads }
        requires part { IsPart part }
        requires before { (x : ℕ) → at self.old true thread x ≤ epoch }
        ensures tables { AreTables self.new }
        ensures threads { self.new.threads ≡ self.old.threads }
        ensures memory { IfErr result (λ e. e ≡ WatchError.Memory) }
        ensures unchanged { OnErr result (cells_of self.new ≡ cells_of self.old) }
        ensures put { OnOk result (IsPut part thread write epoch (at self.old) (at self.new)) }
    {
        self.used = self.used.max(thread + 1);
        let from = base(thread, !write) + part.cell;
        let to = from + (part.to - part.from) as u32;
        if self.epochs.make(from, to).is_err() {
            return Err(WatchError::Memory);
        }
        self.epochs.fill(from, to, epoch);
        Ok(())
    }
}

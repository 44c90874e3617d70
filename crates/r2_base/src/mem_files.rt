//! Files in memory that read in small pieces and fail where they are told to.

ghost use Rattle.std.specs.Prelude.{◌≡◌, ◌≢◌, ◌≤◌, ◌++◌, ◌/◌, [], ℕ, List, Some, None, IsTrue, true, length, take, max, OnOk, OnErr, IfOk, IfErr, option_copied};

use crate::fault::Fault;
use crate::held::{Held, append_held, file_held, read_held, set_held};
use crate::outside::Files;
use std::alloc::{AllocError, Global};
use std::collections::BTreeMap;

/// Files in memory whose reads give at most so many bytes, and whose listed calls answer `Failed`. The calls are
/// counted from 0 over `read_at`, `fresh` and `append`, up to 2^64 - 1.
#[derive(Drop)]
pub struct MemFiles {
    alloc: Global,
    files: Held,
    most: u64,
    fail: Vec<u64>,
    calls: u64,
    read_faults: u64,
    write_faults: u64,
    ghost reads: { 1 ≤ most },
}

impl MemFiles {
    ghost use Rattle.r2_base.specs.Memory.{mem_file, listed, call_number, read_limit, read_faults, write_faults, KeepsPlan};
    ghost use Rattle.r2_base.specs.Listed.{next, is_listed};
    ghost use Rattle.r2_base.specs.Names.{content};

    /// No name is there yet. Reads give at most `most` bytes, at least 1; the calls with the numbers in `fail` fail.
    pub fn new(alloc: Global, most: u64, fail: Vec<u64>) -> Self
        ensures none { (n : List ℕ) → mem_file result n ≡ None }
        ensures limit { read_limit result ≡ max most 1 }
        ensures listed { listed result ≡ fail.items }
        ensures first { call_number result ≡ 0 }
        ensures no_read_faults { read_faults result ≡ 0 }
        ensures no_write_faults { write_faults result ≡ 0 }
    {
        MemFiles {
            alloc,
            files: BTreeMap::new(alloc),
            most: most.max(1),
            fail,
            calls: 0,
            read_faults: 0,
            write_faults: 0,
        }
    }

    /// Makes the name hold these bytes, which is no counted call; no other name changes, and none after a refusal.
    pub fn hold(&mut self, alloc: Global, name: &str, bytes: &[u8]) -> Result<(), AllocError>
        ensures ok { OnOk result (mem_file self.new name.now ≡ Some bytes.now) }
        ensures err { OnErr result (mem_file self.new name.now ≡ mem_file self.old name.now) }
        ensures others { (n : List ℕ) → n ≢ name.now → mem_file self.new n ≡ mem_file self.old n }
        ensures plan { KeepsPlan self.old self.new }
        ensures number { call_number self.new ≡ call_number self.old }
        ensures reads { read_faults self.new ≡ read_faults self.old }
        ensures writes { write_faults self.new ≡ write_faults self.old }
    {
        set_held(alloc, &mut self.files, name, Vec::from_slice(alloc, bytes)?)
    }

    /// What the name holds; None exactly where it isn't there.
    pub fn file(&self, name: &str) -> Option<&[u8]>
        ensures { option_copied result ≡ mem_file self.now name.now }
    {
        file_held(&self.files, name)
    }

    /// How many reads failed.
    pub fn read_faults(&self) -> u64
        ensures { result ≡ read_faults self.now }
    {
        self.read_faults
    }

    /// How many calls of `fresh` and `append` failed.
    pub fn write_faults(&self) -> u64
        ensures { result ≡ write_faults self.now }
    {
        self.write_faults
    }

    /// Counts this call, and answers whether it is a listed one.
    fn is_failing(&mut self) -> bool
        ensures listed { result ≡ is_listed (listed self.old) (call_number self.old) }
        ensures counted { self.new ≡ record self.old { calls = next self.old.calls } }
    {
        let call = self.calls;
        self.calls = call.saturating_add(1);
        self.fail.contains(&call)
    }
}

impl Files for MemFiles {
    ghost use Rattle.r2_base.specs.Memory.{mem_file, mem_store, listed, call_number, read_limit, read_faults, write_faults, KeepsPlan};
    ghost use Rattle.r2_base.specs.Listed.{next, FailsExactly, is_listed, faults_after};
    ghost use Rattle.r2_base.specs.Causes.{IsReadCause, IsWriteCause};
    ghost use Rattle.r2_base.specs.Seen.{OnlyReads, OnlyWrites};
    ghost use Rattle.r2_base.specs.Names.{Reads, GrowsFile, content};
    ghost use Rattle.r2_base.specs.declared.fault.Fault.TheVariants.{Failed};

    ghost seen = { λ f. mem_store f };

    fn read_at(&mut self, name: &str, from: u64, into: &mut [u8]) -> Result<usize, Fault>
        ensures only { OnlyReads (mem_store self.old) (mem_store self.new) }
        ensures bytes { IsTrue true → Reads (mem_file self.old name.now) from into.new result }
        ensures room { IfOk result (λ n. n ≤ length into.new) }
        ensures cause { IfErr result (IsReadCause (read_faults self.old) (read_faults self.new)) }
        ensures failed { FailsExactly (is_listed (listed self.old) (call_number self.old)) result }
        ensures number { call_number self.new ≡ next (call_number self.old) }
        ensures plan { KeepsPlan self.old self.new }
        ensures faults { read_faults self.new ≡ faults_after result (read_faults self.old) }
        ensures most { IfOk result (λ n. n ≤ read_limit self.old) }
    {
        if self.is_failing() {
            self.read_faults = self.read_faults.saturating_add(1);
            return Err(Fault::Failed);
        }
        let most = usize::try_from(self.most).unwrap_or(usize::MAX);
        read_held(&self.files, name, from, most, into).ok_or(Fault::Missing)
    }

    fn fresh(&mut self, name: &str) -> Result<(), Fault>
        ensures only { OnlyWrites name.now (mem_store self.old) (mem_store self.new) }
        ensures empty { IsTrue true → OnOk result (mem_file self.new name.now ≡ Some []) }
        ensures kept { IsTrue true → OnErr result (mem_file self.new name.now ≡ mem_file self.old name.now) }
        ensures cause { IfErr result (IsWriteCause (write_faults self.old) (write_faults self.new)) }
        ensures failed { FailsExactly (is_listed (listed self.old) (call_number self.old)) result }
        ensures number { call_number self.new ≡ next (call_number self.old) }
        ensures plan { KeepsPlan self.old self.new }
        ensures faults { write_faults self.new ≡ faults_after result (write_faults self.old) }
    {
        if self.is_failing() {
            self.write_faults = self.write_faults.saturating_add(1);
            return Err(Fault::Failed);
        }
        let alloc = self.alloc;
        set_held(alloc, &mut self.files, name, Vec::new(alloc))?;
        Ok(())
    }

    fn append(&mut self, name: &str, piece: &[u8]) -> Result<(), Fault>
        ensures only { OnlyWrites name.now (mem_store self.old) (mem_store self.new) }
        ensures grows { IsTrue true
            → GrowsFile (mem_file self.old name.now) (mem_file self.new name.now) result piece.now }
        ensures cause { IfErr result (IsWriteCause (write_faults self.old) (write_faults self.new)) }
        ensures failed { FailsExactly (is_listed (listed self.old) (call_number self.old)) result }
        ensures number { call_number self.new ≡ next (call_number self.old) }
        ensures plan { KeepsPlan self.old self.new }
        ensures faults { write_faults self.new ≡ faults_after result (write_faults self.old) }
        ensures half { result ≡ Err Failed → mem_file self.new name.now
            ≡ Some (content (mem_file self.old name.now) ++ take (length piece.now / 2) piece.now) }
    {
        if self.is_failing() {
            append_held(self.alloc, &mut self.files, name, &piece[..piece.len() / 2])?;
            self.write_faults = self.write_faults.saturating_add(1);
            return Err(Fault::Failed);
        }
        append_held(self.alloc, &mut self.files, name, piece)?;
        Ok(())
    }
}

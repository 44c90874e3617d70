//! Files in memory that never fail.

ghost use Rattle.std.specs.Prelude.{◌≡◌, ◌≢◌, ℕ, List, None, Some, OnOk, OnErr, option_copied};

use crate::fault::Fault;
use crate::held::{Held, append_held, file_held, read_held, set_held};
use crate::outside::Files;
use std::alloc::{AllocError, Global};
use std::collections::BTreeMap;

/// Files in memory that never answer `Failed`; their counts of faults stay 0.
#[derive(Drop)]
pub struct SureFiles {
    alloc: Global,
    files: Held,
}

impl SureFiles {
    ghost use Rattle.r2_base.specs.Memory.{sure_file};

    /// No name is there yet.
    pub fn new(alloc: Global) -> Self
        ensures { (n : List ℕ) → sure_file result n ≡ None }
    {
        SureFiles {
            alloc,
            files: BTreeMap::new(alloc),
        }
    }

    /// Makes the name hold these bytes; no other name changes, and none after a refusal.
    pub fn hold(&mut self, alloc: Global, name: &str, bytes: &[u8]) -> Result<(), AllocError>
        ensures ok { OnOk result (sure_file self.new name.now ≡ Some bytes.now) }
        ensures err { OnErr result (sure_file self.new name.now ≡ sure_file self.old name.now) }
        ensures others { (n : List ℕ) → n ≢ name.now → sure_file self.new n ≡ sure_file self.old n }
    {
        set_held(alloc, &mut self.files, name, Vec::from_slice(alloc, bytes)?)
    }

    /// What the name holds; None exactly where it isn't there.
    pub fn file(&self, name: &str) -> Option<&[u8]>
        ensures { option_copied result ≡ sure_file self.now name.now }
    {
        file_held(&self.files, name)
    }
}

impl Files for SureFiles {
    ghost use Rattle.r2_base.specs.Memory.{sure_store};

    ghost seen = { λ f. sure_store f };

    fn read_at(&mut self, name: &str, from: u64, into: &mut [u8]) -> Result<usize, Fault> {
        read_held(&self.files, name, from, usize::MAX, into).ok_or(Fault::Missing)
    }

    fn fresh(&mut self, name: &str) -> Result<(), Fault> {
        let alloc = self.alloc;
        set_held(alloc, &mut self.files, name, Vec::new(alloc))?;
        Ok(())
    }

    fn append(&mut self, name: &str, piece: &[u8]) -> Result<(), Fault> {
        append_held(self.alloc, &mut self.files, name, piece)?;
        Ok(())
    }
}

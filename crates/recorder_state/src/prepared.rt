//! The regions that externals prepared below the cut.

ghost use Rattle.std.specs.Prelude.{◌≡◌, ℕ, None, OnOk};
ghost use Rattle.recorder_state.specs.Prepared.{Prepares, region_of};

use memory_map::Range;
use std::alloc::{AllocError, Global};
use std::collections::BTreeMap;
use stub_calls::Prepared;

/// The regions that externals prepared below the cut: of those under one key the last. Nothing takes them away.
#[derive(Drop)]
pub struct PreparedBelow {
    /// By key.
    pub regions: BTreeMap<u64, Range>,
}

impl PreparedBelow {
    /// None was prepared.
    pub fn new(alloc: Global) -> PreparedBelow
        ensures { (k : ℕ) → region_of result k ≡ None }
    {
        PreparedBelow {
            regions: BTreeMap::new(alloc),
        }
    }

    /// The region that was prepared last under the key.
    pub fn get(&self, key: u64) -> Option<Range>
        ensures { result ≡ region_of self.now key }
    {
        self.regions.get(&key).copied()
    }

    /// Notes the regions that one call prepares, in its order.
    ///
    /// `AllocError` where there is no memory; it may hold a part of them then.
    pub fn note(&mut self, prepares: &[Prepared]) -> Result<(), AllocError>
        ensures { OnOk result (Prepares prepares.now self.old self.new) }
    {
        for prepared in prepares {
            self.regions.insert(prepared.key, prepared.range)?;
        }
        Ok(())
    }
}

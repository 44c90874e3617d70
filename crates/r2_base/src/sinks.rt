//! Sinks in memory.

ghost use Rattle.std.specs.Prelude.{◌≡◌, ◌≤◌, ◌++◌, ◌/◌, [], ℕ, Some, length, take, Ok, Err, IfErr};

use crate::fault::Fault;
use crate::outside::Sink;
use std::alloc::Global;

/// A sink that never answers `Failed`; its count of faults stays 0.
#[derive(Drop)]
pub struct SureSink {
    bytes: Vec<u8>,
}

impl SureSink {
    ghost use Rattle.r2_base.specs.Memory.{sure_bytes};

    /// A sink that was given nothing.
    pub fn new(alloc: Global) -> Self
        ensures { sure_bytes result ≡ [] }
    {
        SureSink {
            bytes: Vec::new(alloc),
        }
    }

    /// The bytes so far.
    pub fn bytes(&self) -> &[u8]
        ensures { result.now ≡ sure_bytes self.now }
    {
        &self.bytes
    }
}

impl Sink for SureSink {
    ghost use Rattle.r2_base.specs.Memory.{sure_stream};

    ghost seen = { λ s. sure_stream s };

    fn put(&mut self, piece: &[u8]) -> Result<(), Fault> {
        self.bytes.extend_from_slice(piece)?;
        Ok(())
    }
}

/// A sink whose listed calls of `put`, counted from 0, up to 2^64 - 1, add half of the piece and answer `Failed`.
#[derive(Drop)]
pub struct MemSink {
    bytes: Vec<u8>,
    fail: Vec<u64>,
    calls: u64,
    faults: u64,
}

impl MemSink {
    ghost use Rattle.r2_base.specs.Memory.{mem_bytes, sink_listed, sink_call_number, sink_faults};

    /// A sink that was given nothing. The calls with the numbers in `fail` fail.
    pub fn new(alloc: Global, fail: Vec<u64>) -> Self
        ensures empty { mem_bytes result ≡ [] }
        ensures listed { sink_listed result ≡ fail.items }
        ensures first { sink_call_number result ≡ 0 }
        ensures no_faults { sink_faults result ≡ 0 }
    {
        MemSink {
            bytes: Vec::new(alloc),
            fail,
            calls: 0,
            faults: 0,
        }
    }

    /// The bytes so far.
    pub fn bytes(&self) -> &[u8]
        ensures { result.now ≡ mem_bytes self.now }
    {
        &self.bytes
    }

    /// How many calls failed.
    pub fn faults(&self) -> u64
        ensures { result ≡ sink_faults self.now }
    {
        self.faults
    }
}

impl Sink for MemSink {
    ghost use Rattle.r2_base.specs.Memory.{mem_bytes, mem_stream, sink_listed, sink_call_number, sink_faults};
    ghost use Rattle.r2_base.specs.Listed.{next, FailsExactly, is_listed, faults_after};
    ghost use Rattle.r2_base.specs.Causes.{IsWriteCause};
    ghost use Rattle.r2_base.specs.Sinks.{TellsGrowth};
    ghost use Rattle.r2_base.specs.declared.fault.Fault.TheVariants.{Failed};

    ghost seen = { λ s. mem_stream s };

    fn put(&mut self, piece: &[u8]) -> Result<(), Fault>
        ensures bytes { TellsGrowth (Some (mem_bytes self.old)) (Some (mem_bytes self.new)) result
            piece.now }
        ensures later { sink_faults self.old ≤ sink_faults self.new }
        ensures cause { IfErr result (IsWriteCause (sink_faults self.old) (sink_faults self.new)) }
        ensures failed { FailsExactly (is_listed (sink_listed self.old) (sink_call_number self.old)) result }
        ensures number { sink_call_number self.new ≡ next (sink_call_number self.old) }
        ensures plan { sink_listed self.new ≡ sink_listed self.old }
        ensures faults { sink_faults self.new ≡ faults_after result (sink_faults self.old) }
        ensures half { result ≡ Err Failed → mem_bytes self.new ≡ mem_bytes self.old ++
            take (length piece.now / 2) piece.now }
    {
        let fails = self.fail.contains(&self.calls);
        self.calls = self.calls.saturating_add(1);
        if fails {
            self.bytes.extend_from_slice(&piece[..piece.len() / 2])?;
            self.faults = self.faults.saturating_add(1);
            return Err(Fault::Failed);
        }
        self.bytes.extend_from_slice(piece)?;
        Ok(())
    }
}

//! What the stubs say of a Call.

ghost use Rattle.std.specs.Prelude.{◌≡◌, map, OnOk};
ghost use Rattle.marks.specs.Ranges.{Prepared as SaidPrepared, prepared_ranges};
ghost use Rattle.c_code.specs.Valid.{IsValid};
ghost use Rattle.recorder_state.specs.Inputs.{world_of};
ghost use Rattle.recorder_calls.specs.Calls.{AreRegionsOf, IsFilled};

use memory_map::Range;
use recorder_state::Inputs;
use run_events::Key;
use std::alloc::{AllocError, Global};
use steps_above_memory::CallRegions;
use stub_calls::{Done, Prepared};

/// What the stubs say of one Call. It keeps its memory from Call to Call.
#[derive(Drop)]
pub struct Calling {
    pub done: Done,
    pub keys: Vec<Key>,
    /// The ranges that are prepared.
    pub prepared: Vec<Range>,
    /// Their keys.
    pub under: Vec<u64>,
}

impl Calling {
    /// Nothing is said.
    pub fn new(alloc: Global) -> Calling {
        Calling {
            done: Done::new(alloc),
            keys: Vec::new(alloc),
            prepared: Vec::new(alloc),
            under: Vec::new(alloc),
        }
    }

    /// Reads what is said of a Call of the function with these arguments.
    pub fn fill(&mut self, inputs: Inputs<'_>, func: u16, args: &[u64]) -> Result<(), AllocError>
        requires { IsValid inputs.code.now }
        ensures { OnOk result (IsFilled (world_of inputs.entry) func args.now self.new) }
    {
        let ops = inputs.stubs.ops(func);
        self.done.fill(inputs.code.code(), ops, func, args, 0)?;
        self.done.call_keys(&mut self.keys)?;
        put_ranges(&mut self.prepared, self.done.prepares())?;
        put_keys(&mut self.under, self.done.prepares())
    }

    /// The regions of the Call.
    pub fn regions(&self) -> CallRegions<'_>
        ensures { AreRegionsOf self.now result }
    {
        CallRegions {
            ins: self.done.ins(),
            outs: self.done.outs(),
            prepared: &self.prepared,
            under: &self.under,
        }
    }
}

fn put_ranges(ranges: &mut Vec<Range>, prepares: &[Prepared]) -> Result<(), AllocError>
    ensures { OnOk result (ranges.new.items ≡ prepared_ranges prepares.now) }
{
    ranges.clear();
    for prepared in prepares {
        ranges.push(prepared.range)?;
    }
    Ok(())
}

fn put_keys(keys: &mut Vec<u64>, prepares: &[Prepared]) -> Result<(), AllocError>
    ensures { OnOk result (keys.new.items ≡ map (λ (p : SaidPrepared). p.key) prepares.now) }
{
    keys.clear();
    for prepared in prepares {
        keys.push(prepared.key)?;
    }
    Ok(())
}

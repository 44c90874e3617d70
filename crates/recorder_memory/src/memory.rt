//! Memory with its watch, and how it begins.

ghost use Rattle.std.specs.Prelude.{All, IfOk};
ghost use Rattle.space_memory.specs.Objects.{IsInArea};

use memory_map::{Placed, THREADS};
use race_watch::Watch;
use space_memory::Spaces;
use std::alloc::{AllocError, Global};
use steps_above_memory::MemoryAbove;

/// The memory of both sides of the cut, and the watch over the accesses of code above it.
#[derive(Drop)]
pub struct Memory {
    pub above: MemoryAbove,
}

impl Memory {
    ghost use Rattle.recorder_memory.specs.Stands.{BeginsRuns};

    /// The memory before a run, with the objects in their places: each lies whole among the constants, which end before the
    /// replay globals, or in an area of globals.
    pub fn new(alloc: Global, placed: &Placed) -> Result<Memory, AllocError>
        requires globals { All IsInArea placed.now.globals }
        requires strings { All IsInArea placed.now.strings }
        ensures { IfOk result (BeginsRuns placed.now) }
    {
        let spaces = Spaces::new(alloc, placed)?;
        let watch = Watch::new(alloc, THREADS)?;
        let above = MemoryAbove::new(spaces, watch);
        Ok(Memory { above })
    }
}

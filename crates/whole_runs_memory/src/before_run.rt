//! The memory before a run.

ghost use Rattle.whole_runs.specs.World.{World};
ghost use Rattle.whole_runs_memory.specs.Starts.{NewMemoryIsWhole};

/// Memory before a run stands for the run in which nothing was done yet, where each object lies in an area.
pub fn new_memory_is_whole()
    ensures { (w : World) → NewMemoryIsWhole w }
{}

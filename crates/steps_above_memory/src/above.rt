//! Memory above the cut with its watch.

ghost use Rattle.std.specs.Prelude.{◌≡◌, length};
ghost use Rattle.memory_map.specs.declared.areas.TheConstants.{THREADS};

use race_watch::Watch;
use space_memory::Spaces;

/// The memory of a run, and the watch over the accesses of code above the cut.
#[derive(Drop)]
pub struct MemoryAbove {
    pub spaces: Spaces,
    pub watch: Watch,
    ghost threads: { length watch.rows ≡ THREADS },
}

//! Where the objects of a program lie: the areas of memory, ranges of addresses, and the places of globals and strings.
#![tactic(auto)]

mod areas;
mod laws;
mod lists;
mod placed;

pub use areas::{
    CONSTANTS, FRAMES, GLOBALS_SIZE, POOL_SIZE, REPLAY_GLOBALS, REPLAY_MEMORY, REPLAY_POOL,
    REPLAY_STACKS, STACK_SIZE, SYSTEM_GLOBALS, SYSTEM_MEMORY, SYSTEM_POOL, SYSTEM_STACKS, THREADS,
};
pub use laws::areas_are_those_of_runs;
pub use lists::{Bytes8, Flags, Places};
pub use marks::Range;
pub use placed::{Place, Placed};

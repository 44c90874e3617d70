//! The state of a recording.

ghost use Rattle.std.specs.Prelude.{IfOk};
ghost use Rattle.whole_runs.specs.Fits.{IsFit};
ghost use Rattle.recorder_state.specs.Inputs.{world_of};
ghost use Rattle.recorder_state.specs.Stands.{IsReached};

use crate::inputs::Inputs;
use crate::known::Known;
use crate::prepared::PreparedBelow;
use recorder_book::Book;
use recorder_memory::Memory;
use recorder_system::RunSystem;
use recorder_threads::Threads;
use std::alloc::{AllocError, Global};
use steps_above_interface::InterfaceState;
use steps_above_stamps::Stamps;

/// What is kept of a run while it is recorded: its threads, the system below the cut, the memory of both sides, the regions that
/// externals prepared below the cut, the numbers of its events, what was registered and returned, its records and its log, and what
/// was printed on either side.
#[derive(Drop)]
pub struct RunState {
    pub threads: Threads,
    pub system: RunSystem,
    pub memory: Memory,
    pub prepared: PreparedBelow,
    pub stamps: Stamps,
    pub interface: InterfaceState,
    pub book: Book,
    pub output: Vec<u8>,
    pub system_output: Vec<u8>,
    /// How many steps were made.
    pub steps: u64,
    /// What the code of the thread that made the last step comes to, so that nobody need look again.
    pub known: Option<Known>,
}

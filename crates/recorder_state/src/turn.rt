//! What comes after a state.

use c_code::Side;
use recorder_threads::Want;
use whole_runs::Ending;

/// What comes after a state.
#[derive(Clone, Copy)]
pub enum Turn {
    /// The run ends before another step is tested.
    Ended(Ending),
    /// The code of this thread wants this, on this side of the cut.
    Step { thread: u8, side: Side, want: Want },
}

//! Memory that is kept from step to step.

use recorder_calls::Calling;
use recorder_returns::Returning;
use std::alloc::Global;
use stub_calls::Done;

/// Memory that is kept from step to step: what is said of a call or its result, whatever it last was.
#[derive(Drop)]
pub struct Buffers {
    /// Of a call below the cut, which is no event.
    pub done: Done,
    /// Of a Call.
    pub calling: Calling,
    /// Of a Ret.
    pub returning: Returning,
}

impl Buffers {
    /// Nothing is said.
    pub fn new(alloc: Global) -> Buffers {
        Buffers {
            done: Done::new(alloc),
            calling: Calling::new(alloc),
            returning: Returning::new(alloc),
        }
    }
}

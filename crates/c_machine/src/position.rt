// What a thread keeps.

use crate::state::State;
use crate::waits::Waits;
use c_machine_stack::Stack;

/// Where a thread is, its values, and what waits for the ends of the functions that it is in.
#[derive(Drop)]
pub(crate) struct Position {
    pub(crate) state: State,
    pub(crate) values: Stack<u64>,
    pub(crate) waits: Waits,
}

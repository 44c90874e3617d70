//! How many activations of functions are open.

ghost use Rattle.std.specs.Prelude.{◌≡◌, ◌≤◌};
ghost use Rattle.c_machine.specs.Positions.{config};
ghost use Rattle.c_machine.specs.Moves.{open_on};

use crate::position::Position;
use crate::state::State;
use crate::thread::Thread;
use crate::waits::{caller, one};
use c_code::Side;

impl Thread {
    /// How many activations of functions are open on the side, at most `depth`.
    pub fn open(&self, side: Side) -> usize
        ensures count { result ≡ open_on side self.now.config }
        ensures few { result ≤ self.now.depth }
    {
        self.position.open(side, self.depth)
    }
}

impl Position {
    // No more are open than the limit.
    fn open(&self, side: Side, limit: u16) -> usize
        requires { open_on side (config self.now) ≤ limit }
        ensures { result ≡ open_on side (config self.now) }
    {
        let waits = self.waits.count(side);
        match self.state {
            State::Going(a) => one(side, a.side) + waits,
            State::Calling(call, _) => one(side, call.then.side) + waits,
            State::Entering(entry) => one(side, entry.side) + waits,
            State::Closing(_, waiting) => caller(side, waiting) + waits,
            State::Starting(_) | State::Done(_) | State::Lost => 0,
        }
    }
}

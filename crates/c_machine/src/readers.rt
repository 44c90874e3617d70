//! What a thread tells of itself.

ghost use Rattle.std.specs.Prelude.{◌≡◌, IsTrue, IsFalse};
ghost use Rattle.memory_map.specs.declared.placed.Placed.{Placed as Places};
ghost use Rattle.c_code.specs.Frames.{are_values as values_are};
ghost use Rattle.c_machine.specs.Callers.{crosses_at};
ghost use Rattle.c_machine.specs.Moves.{IsCallOf};
ghost use Rattle.c_machine.specs.Positions.{laid, config, made_of};
ghost use Rattle.c_machine_stack.specs.Stacks.{held};
ghost use Rattle.c_machine.specs.Readers.{args_of, closing_mode, mode_of, returned_args, side_of, is_indirect};

use crate::begin::crosses;
use crate::position::Position;
use crate::state::State;
use crate::thread::Thread;
use c_code::{Placed, Shape, Side, Waiting};
use c_code_fused::FusedCode;

impl Position {
    fn args(&self) -> &[u64]
        ensures { result.now ≡ args_of (config self.now) }
    {
        match self.state {
            State::Calling(call, _) => self.values.top_slice(call.args as usize),
            State::Entering(entry) => self.values.top_slice(entry.args as usize),
            State::Closing(_, waiting) => self.returned(waiting),
            State::Starting(_) => self.values.top_slice(self.values.len()),
            State::Going(_) | State::Done(_) | State::Lost => &[],
        }
    }

    // The arguments of the call that returns.
    fn returned(&self, waiting: Waiting) -> &[u64]
        ensures { result.now ≡ returned_args waiting (held self.now.values) }
    {
        match waiting {
            Waiting::ForRet(call) => self.values.top_slice(call.args as usize),
            Waiting::ForValue(_) => &[],
            Waiting::ForUpRet(_, _) => &[],
            Waiting::ForBelow(_, _) => &[],
            Waiting::ForOutside(_) => &[],
        }
    }

    fn side(&self) -> Side
        ensures { result ≡ side_of (config self.now) }
    {
        match self.state {
            State::Going(a) => a.side,
            State::Calling(call, _) => call.then.side,
            State::Entering(entry) => entry.side,
            State::Closing(_, _) => Side::Replay,
            State::Starting(_) | State::Done(_) | State::Lost => Side::System,
        }
    }

    fn indirect(&self) -> bool
        ensures { result ≡ is_indirect (config self.now) }
    {
        match self.state {
            State::Calling(call, _) => call.indirect,
            State::Entering(entry) => entry.indirect,
            State::Starting(_) => true,
            State::Going(_) | State::Closing(_, _) | State::Done(_) | State::Lost => false,
        }
    }
}

impl Position {
    fn crosses(&self, code: &FusedCode, placed: &Placed) -> bool
        ensures { result ≡ crosses_at (laid code.now placed.now) (config self.now) }
    {
        match self.state {
            State::Calling(call, _) => crosses(call, code, placed),
            State::Entering(_)
            | State::Going(_)
            | State::Closing(_, _)
            | State::Starting(_)
            | State::Done(_)
            | State::Lost => false,
        }
    }

    fn mode(&self) -> Side
        ensures { result ≡ mode_of (made_of self.now.state) (config self.now) }
    {
        match self.state {
            State::Going(a) => a.side,
            State::Calling(call, made) => { if made { Side::System } else { call.then.side } }
            State::Entering(entry) => entry.side,
            State::Closing(_, waiting) => closing(waiting),
            State::Starting(_) | State::Done(_) | State::Lost => Side::System,
        }
    }
}

impl Thread {
    /// The thread's number.
    pub fn number(&self) -> u8
        ensures { result ≡ self.now.number }
    {
        self.number
    }

    /// How many activations it may have on each side.
    pub fn depth(&self) -> u16
        ensures { result ≡ self.now.depth }
    {
        self.depth
    }

    /// The arguments of the call that is next, of a thread's first function, of the function that is to be entered, or of the call whose return is next, in
    /// order; else none.
    pub fn args(&self) -> &[u64]
        ensures { result.now ≡ args_of self.now.config }
    {
        self.position.args()
    }

    /// The side of the code that goes on: above the cut at an event that ends a crossing, below it in no function.
    pub fn side(&self) -> Side
        ensures { result ≡ side_of self.now.config }
    {
        self.position.side()
    }

    /// The mode that the thread is in. After the event of a call, and up to its return, it is in system mode, unless a function was
    /// called back.
    pub fn mode(&self) -> Side
        ensures { result ≡ mode_of self.now.made self.now.config }
    {
        self.position.mode()
    }

    /// Whether the function of the call that is next, or the one that is to be entered, comes from an address, as a thread's first
    /// one does.
    pub fn indirect(&self) -> bool
        ensures { result ≡ is_indirect self.now.config }
    {
        self.position.indirect()
    }

    /// Whether the call that is next crosses the cut: replay code calls a function of the interface.
    pub fn crosses(&self, code: &FusedCode, placed: &Placed) -> bool
        ensures { result ≡ crosses_at (laid code.now placed.now) self.now.config }
    {
        self.position.crosses(code, placed)
    }
}

/// Whether the function has a body, and the arguments are values of its parameters' types, one for each.
pub fn is_call_of(code: &FusedCode, func: u16, args: &[u64]) -> bool
    ensures yes { (placed : Places) → IsTrue result → IsCallOf (laid code.now placed) func args.now }
    ensures no { (placed : Places) → IsFalse result → IsCallOf (laid code.now placed) func args.now → ⊥ }
{
    match code.func(func) {
        Some(info) => info.entry.is_some() && are_values(info.params.as_slice(), args),
        None => false,
    }
}

// The mode of a thread before the event that ends a crossing.
fn closing(waiting: Waiting) -> Side
    ensures { result ≡ closing_mode waiting }
{
    match waiting {
        Waiting::ForValue(_) | Waiting::ForRet(_) => Side::System,
        Waiting::ForUpRet(_, _) | Waiting::ForBelow(_, _) | Waiting::ForOutside(_) => Side::Replay,
    }
}

fn are_values(shapes: &[Shape], args: &[u64]) -> bool
    ensures { result ≡ values_are shapes.now args.now }
{
    match shapes {
        [] => args.is_empty(),
        [shape, others @ ..] => match args {
            [] => false,
            [value, rest @ ..] => shape.has_value(*value) && are_values(others, rest),
        },
    }
}

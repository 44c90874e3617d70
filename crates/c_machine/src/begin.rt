// How a function begins.

ghost use Rattle.std.specs.Prelude.{◌≡◌, ◌+◌, ◌<◌, ◌≤◌, ◌&&◌, not, false, ◌∷◌, ◌++◌, [], length, drop, reverse};
ghost use Rattle.source_limits.specs.Limits.{most_values};
ghost use Rattle.marks.specs.declared.side.Side.TheVariants.{Replay};
ghost use Rattle.c_code.specs.declared.activation.Waiting.TheVariants.{ForBelow, ForUpRet, ForOutside};
ghost use Rattle.c_code.specs.Fits.{values_of, waits_of};
ghost use Rattle.c_code.specs.Machine.{Entering, Starting, Under, uncover as uncovered};
ghost use Rattle.c_machine_stack.specs.Stacks.{held, room_of};
ghost use Rattle.c_machine.specs.Positions.{laid, config, crossed, made_of};
ghost use Rattle.c_machine.specs.Moves.{MayBegin, begun, crosses as crosses_in, kept, waiting as waiting_of};

use crate::position::Position;
use crate::state::{Entry, State};
use crate::tops::{has_args, is_face};
use c_code::{Call, Placed, Side, Waiting};
use c_code_fused::FusedCode;
use c_machine_stack::Stack;

impl Position {
    // A function begins: at a call, outside of all, or as the thread's first one.
    pub(crate) fn begin(
        &mut self,
        code: &FusedCode,
        placed: &Placed,
        func: u16,
        args: &[u64],
        side: Side,
        up: bool,
    )
        requires may { MayBegin (laid code.now placed.now) (config self.old) func args.now side up }
        requires few { length args.now ≤ most_values }
        requires values { length (values_of (config self.old)) + length args.now < room_of self.old.values }
        requires waits { length (waits_of (config self.old)) < room_of self.old.waits.all }
        ensures begun { config self.new ≡ begun (laid code.now placed.now) (config self.old) func args.now
            side up }
        ensures values { room_of self.new.values ≡ room_of self.old.values }
        ensures waits { room_of self.new.waits.all ≡ room_of self.old.waits.all }
    {
        match self.state {
            State::Calling(call, _) => self.begin_at(call, code, placed, func, args, side, up),
            State::Starting(Some(_)) => {
                if up {
                    self.begin_up_outside(func, args);
                } else {
                    self.begin_outside(true, func, args, side);
                }
            }
            State::Done(_) => {
                if up {
                    self.begin_up_outside(func, args);
                } else {
                    self.begin_outside(false, func, args, side);
                }
            }
            State::Going(_)
            | State::Entering(_)
            | State::Closing(_, _)
            | State::Starting(None)
            | State::Lost => self.state = State::Lost,
        }
    }

    // The same at a call.
    fn begin_at(
        &mut self,
        call: Call,
        code: &FusedCode,
        placed: &Placed,
        func: u16,
        args: &[u64],
        side: Side,
        up: bool,
    )
        requires at { config self.old ≡ Under call (held self.old.values) (held self.old.waits.all) }
        requires may { MayBegin (laid code.now placed.now) (config self.old) func args.now side up }
        requires few { length args.now ≤ most_values }
        requires values { length (held self.old.values) + length args.now < room_of self.old.values }
        requires waits { length (held self.old.waits.all) < room_of self.old.waits.all }
        ensures begun { config self.new ≡ begun (laid code.now placed.now) (config self.old) func args.now
            side up }
        ensures values { room_of self.new.values ≡ room_of self.old.values }
        ensures waits { room_of self.new.waits.all ≡ room_of self.old.waits.all }
    {
        if !has_args(&self.values, call.args) {
            self.state = State::Lost;
            return;
        }
        if !up {
            self.begin_called(call, crosses(call, code, placed), func, args, side);
            return;
        }
        match call.then.side {
            Side::Replay => self.begin_below(call, func, args),
            Side::System => self.begin_up(call, func, args),
        }
    }

    // The function of the call begins.
    fn begin_called(&mut self, call: Call, crosses: bool, func: u16, args: &[u64], side: Side)
        requires few { length args.now ≤ most_values }
        requires values { length (held self.old.values) + length args.now < room_of self.old.values }
        requires waits { length (held self.old.waits.all) < room_of self.old.waits.all }
        ensures begun { config self.new ≡ Entering side (call.indirect &&
            not crosses) func args.now (kept crosses (held self.old.values)
            (uncovered call.indirect (drop call.args (held self.old.values)))) (waiting_of crosses call ∷
            held self.old.waits.all) }
        ensures values { room_of self.new.values ≡ room_of self.old.values }
        ensures waits { room_of self.new.waits.all ≡ room_of self.old.waits.all }
    {
        self.wait(call, crosses);
        self.enter(side, call.indirect && !crosses, func, args);
    }

    // The call waits for the end of its function. One that crosses the cut keeps its arguments for its return.
    fn wait(&mut self, call: Call, crosses: bool)
        requires { length (held self.old.waits.all) < room_of self.old.waits.all }
        ensures kept { held self.new.values ≡
            kept crosses (held self.old.values)
            (uncovered call.indirect (drop call.args (held self.old.values))) }
        ensures few { length (held self.new.values) ≤ length (held self.old.values) }
        ensures waiting { held self.new.waits.all ≡ waiting_of crosses call ∷ held self.old.waits.all }
        ensures values { room_of self.new.values ≡ room_of self.old.values }
        ensures waits { room_of self.new.waits.all ≡ room_of self.old.waits.all }
    {
        if crosses {
            self.waits.push(Waiting::ForRet(call));
        } else {
            self.uncover(call);
            self.waits.push(Waiting::ForValue(call.then));
        }
    }

    // System code below a call by replay code calls a function back: the call stays, with its arguments.
    fn begin_below(&mut self, call: Call, func: u16, args: &[u64])
        requires few { length args.now ≤ most_values }
        requires values { length (held self.old.values) + length args.now < room_of self.old.values }
        requires waits { length (held self.old.waits.all) < room_of self.old.waits.all }
        ensures begun { config self.new ≡ Entering Replay false func args.now (held self.old.values)
            (ForBelow call func ∷ held self.old.waits.all) }
        ensures values { room_of self.new.values ≡ room_of self.old.values }
        ensures waits { room_of self.new.waits.all ≡ room_of self.old.waits.all }
    {
        self.waits.push(Waiting::ForBelow(call, func));
        self.enter(Side::Replay, false, func, args);
    }

    // A call by system code calls its function back.
    fn begin_up(&mut self, call: Call, func: u16, args: &[u64])
        requires few { length args.now ≤ most_values }
        requires values { length (held self.old.values) + length args.now < room_of self.old.values }
        requires waits { length (held self.old.waits.all) < room_of self.old.waits.all }
        ensures begun { config self.new ≡ Entering Replay false func args.now
            (uncovered call.indirect (drop call.args (held self.old.values)))
            (ForUpRet call.then call.func ∷ held self.old.waits.all) }
        ensures values { room_of self.new.values ≡ room_of self.old.values }
        ensures waits { room_of self.new.waits.all ≡ room_of self.old.waits.all }
    {
        self.uncover(call);
        self.waits.push(Waiting::ForUpRet(call.then, call.func));
        self.enter(Side::Replay, false, func, args);
    }

    // A function is called back outside of all calls.
    fn begin_up_outside(&mut self, func: u16, args: &[u64])
        requires few { length args.now ≤ most_values }
        requires values { length args.now < room_of self.old.values }
        requires waits { 0 < room_of self.old.waits.all }
        ensures begun { config self.new ≡ Entering Replay false func args.now [] (ForOutside func ∷ []) }
        ensures values { room_of self.new.values ≡ room_of self.old.values }
        ensures waits { room_of self.new.waits.all ≡ room_of self.old.waits.all }
    {
        self.values.clear();
        self.waits.clear();
        self.waits.push(Waiting::ForOutside(func));
        self.enter(Side::Replay, false, func, args);
    }

    // The thread starts with the function.
    pub(crate) fn start(&mut self, func: Option<u16>, args: &[u64])
        requires { length args.now < room_of self.old.values }
        ensures started { config self.new ≡ Starting func args.now }
        ensures made { made_of self.new.state ≡ false }
        ensures values { room_of self.new.values ≡ room_of self.old.values }
        ensures waits { room_of self.new.waits.all ≡ room_of self.old.waits.all }
    {
        self.values.clear();
        self.waits.clear();
        push_all(&mut self.values, args);
        self.state = State::Starting(func);
    }

    // The event of the call was made.
    pub(crate) fn cross(&mut self)
        ensures crossed { self.new ≡ record self.old { state = crossed self.old.state } }
    {
        if let State::Calling(call, _) = self.state {
            self.state = State::Calling(call, true);
        }
    }

    // A function begins outside of all calls.
    fn begin_outside(&mut self, indirect: bool, func: u16, args: &[u64], side: Side)
        requires few { length args.now ≤ most_values }
        requires values { length args.now < room_of self.old.values }
        ensures begun { config self.new ≡ Entering side indirect func args.now [] [] }
        ensures values { room_of self.new.values ≡ room_of self.old.values }
        ensures waits { room_of self.new.waits.all ≡ room_of self.old.waits.all }
    {
        self.values.clear();
        self.waits.clear();
        self.enter(side, indirect, func, args);
    }

    // The function is to be entered, with these arguments on top of the values.
    fn enter(&mut self, side: Side, indirect: bool, func: u16, args: &[u64])
        requires few { length args.now ≤ most_values }
        requires values { length (held self.old.values) + length args.now < room_of self.old.values }
        ensures entering { config self.new ≡ Entering side indirect func args.now (held self.old.values)
            (held self.old.waits.all) }
        ensures values { room_of self.new.values ≡ room_of self.old.values }
        ensures waits { self.new.waits ≡ self.old.waits }
    {
        push_all(&mut self.values, args);
        self.state = State::Entering(Entry {
            side,
            indirect,
            func,
            args: args.len() as u8,
        });
    }
}

// Puts the values on top, the last one topmost.
fn push_all(stack: &mut Stack<u64>, values: &[u64])
    requires { length (held stack.old) + length values.now < room_of stack.old }
    ensures pushed { held stack.new ≡ reverse values.now ++ held stack.old }
    ensures room { room_of stack.new ≡ room_of stack.old }
{
    for value in values {
        stack.push(*value);
    }
}

// Whether the call is one of replay code of a function of the interface.
pub(crate) fn crosses(call: Call, code: &FusedCode, placed: &Placed) -> bool
    ensures { result ≡ crosses_in (laid code.now placed.now) call }
{
    match call.then.side {
        Side::Replay => is_face(placed, call.func),
        Side::System => false,
    }
}

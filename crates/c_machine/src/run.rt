// How the function of a call begins where its arguments lie.

ghost use Rattle.std.specs.Prelude.{◌≡◌, ◌+◌, ◌<◌, ◌≤◌, ◌&&◌, true, false, not, if◌then◌else◌, ◌∷◌, [], length, take, drop, reverse};
ghost use Rattle.source_limits.specs.Limits.{most_values};
ghost use Rattle.marks.specs.declared.side.Side.TheVariants.{Replay, System};
ghost use Rattle.c_code.specs.declared.activation.Waiting.TheVariants.{ForUpRet};
ghost use Rattle.c_code.specs.Fits.{values_of, waits_of};
ghost use Rattle.c_code.specs.Machine.{Entering, uncover as uncovered};
ghost use Rattle.c_machine_stack.specs.Stacks.{held, room_of};
ghost use Rattle.c_machine.specs.Positions.{laid, config};
ghost use Rattle.c_machine.specs.Readers.{args_of, func_at};
ghost use Rattle.c_machine.specs.Callers.{MayGoUp, MayRun, side_at};
ghost use Rattle.c_machine.specs.Moves.{begun, kept, waiting as waiting_of};

use crate::begin::crosses;
use crate::position::Position;
use crate::state::{Entry, State};
use c_code::{Call, Placed, Side, Waiting};
use c_code_fused::FusedCode;

impl Position {
    // The function of the call begins on its side.
    pub(crate) fn run(&mut self, code: &FusedCode, placed: &Placed)
        requires may { MayRun (laid code.now placed.now) (config self.old) }
        requires few { length (args_of (config self.old)) ≤ most_values }
        requires values { length (values_of (config self.old)) + length (args_of (config self.old)) <
            room_of self.old.values }
        requires waits { length (waits_of (config self.old)) < room_of self.old.waits.all }
        ensures run { config self.new ≡ begun (laid code.now placed.now) (config self.old)
            (func_at (config self.old)) (args_of (config self.old))
            (side_at (laid code.now placed.now) (config self.old)) false }
        ensures values { room_of self.new.values ≡ room_of self.old.values }
        ensures waits { room_of self.new.waits.all ≡ room_of self.old.waits.all }
    {
        if let State::Calling(call, _) = self.state {
            self.run_call(call, crosses(call, code, placed));
            return;
        }
        let State::Starting(Some(func)) = self.state else {
            unreachable!("a call is next");
        };
        self.waits.clear();
        self.enter_all(Side::System, true, func);
    }

    // System code calls the function of its call back.
    pub(crate) fn go_up(&mut self, code: &FusedCode, placed: &Placed)
        requires may { MayGoUp (laid code.now placed.now) (config self.old) }
        requires few { length (args_of (config self.old)) ≤ most_values }
        requires waits { length (waits_of (config self.old)) < room_of self.old.waits.all }
        ensures up { config self.new ≡ begun (laid code.now placed.now) (config self.old)
            (func_at (config self.old)) (args_of (config self.old)) Replay true }
        ensures values { room_of self.new.values ≡ room_of self.old.values }
        ensures waits { room_of self.new.waits.all ≡ room_of self.old.waits.all }
    {
        if let State::Calling(call, _) = self.state {
            self.up_call(call);
            return;
        }
        let State::Starting(Some(func)) = self.state else {
            unreachable!("a call is next");
        };
        self.waits.clear();
        self.waits.push(Waiting::ForOutside(func));
        self.enter_all(Side::Replay, false, func);
    }

    // The function of the call begins. One that crosses the cut keeps its arguments for its return.
    fn run_call(&mut self, call: Call, crosses: bool)
        requires enough { call.args ≤ length (held self.old.values) }
        requires values { length (held self.old.values) + call.args < room_of self.old.values }
        requires waits { length (held self.old.waits.all) < room_of self.old.waits.all }
        ensures run { config self.new ≡ Entering (if crosses then System else call.then.side)
            (call.indirect && not crosses) call.func (reverse (take call.args (held self.old.values)))
            (kept crosses (held self.old.values)
            (uncovered call.indirect (drop call.args (held self.old.values)))) (waiting_of crosses call ∷
            held self.old.waits.all) }
        ensures values { room_of self.new.values ≡ room_of self.old.values }
        ensures waits { room_of self.new.waits.all ≡ room_of self.old.waits.all }
    {
        if crosses {
            self.values.repeat_top(call.args as usize);
            self.waits.push(Waiting::ForRet(call));
            self.enter_top(call, Side::System, false);
        } else {
            self.uncover_below(call);
            self.waits.push(Waiting::ForValue(call.then));
            self.enter_top(call, call.then.side, call.indirect);
        }
    }

    // A call by system code calls its function back.
    fn up_call(&mut self, call: Call)
        requires enough { call.args ≤ length (held self.old.values) }
        requires waits { length (held self.old.waits.all) < room_of self.old.waits.all }
        ensures up { config self.new ≡ Entering Replay false call.func
            (reverse (take call.args (held self.old.values)))
            (uncovered call.indirect (drop call.args (held self.old.values)))
            (ForUpRet call.then call.func ∷ held self.old.waits.all) }
        ensures values { room_of self.new.values ≡ room_of self.old.values }
        ensures waits { room_of self.new.waits.all ≡ room_of self.old.waits.all }
    {
        self.uncover_below(call);
        self.waits.push(Waiting::ForUpRet(call.then, call.func));
        self.enter_top(call, Side::Replay, false);
    }

    // Takes away the address below the arguments of a call, where it was made through one.
    fn uncover_below(&mut self, call: Call)
        requires enough { call.args ≤ length (held self.old.values) }
        ensures top { take call.args (held self.new.values) ≡ take call.args (held self.old.values) }
        ensures below { drop call.args (held self.new.values) ≡
            uncovered call.indirect (drop call.args (held self.old.values)) }
        ensures room { room_of self.new.values ≡ room_of self.old.values }
        ensures waits { self.new.waits ≡ self.old.waits }
    {
        if call.indirect {
            self.values.drop_below(call.args as usize);
        }
    }

    // The function of the call is to be entered, with the arguments on top.
    fn enter_top(&mut self, call: Call, side: Side, indirect: bool)
        ensures entering { config self.new ≡ Entering side indirect call.func
            (reverse (take call.args (held self.old.values))) (drop call.args (held self.old.values))
            (held self.old.waits.all) }
        ensures values { self.new.values ≡ self.old.values }
        ensures waits { self.new.waits ≡ self.old.waits }
    {
        self.state = State::Entering(Entry {
            side,
            indirect,
            func: call.func,
            args: call.args,
        });
    }

    // The function is to be entered, with all values as arguments.
    fn enter_all(&mut self, side: Side, indirect: bool, func: u16)
        requires few { length (held self.old.values) ≤ most_values }
        ensures entering { config self.new ≡ Entering side indirect func (reverse (held self.old.values))
            [] (held self.old.waits.all) }
        ensures values { self.new.values ≡ self.old.values }
        ensures waits { self.new.waits ≡ self.old.waits }
    {
        let args = self.values.len() as u8;
        self.state = State::Entering(Entry {
            side,
            indirect,
            func,
            args,
        });
    }
}

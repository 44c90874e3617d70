// What an answer does to a thread.

ghost use Rattle.std.specs.Prelude.{◌≡◌, ◌<◌, [], ◌∷◌, length, drop, reverse};
ghost use Rattle.memory_map.specs.declared.placed.Placed.{Placed as Places};
ghost use Rattle.c_code.specs.Machine.{Going, Starting, close, framed, give as given, Laid, take_args, with_args, awaiting, returning, uncover as uncovered};
ghost use Rattle.c_code.specs.Fits.{values_of};
ghost use Rattle.c_code.specs.MarkLists.{result_of, ended as result_is};
ghost use Rattle.c_code.specs.Valid.{IsValid};
ghost use Rattle.c_machine_stack.specs.Stacks.{held, room_of};
ghost use Rattle.c_machine.specs.Positions.{laid, config, IsElsewhere};
ghost use Rattle.marks.specs.Wants.{Answer as Answers};
ghost use Rattle.c_machine.specs.Wants.{told};
ghost use Rattle.c_machine.specs.Acts.{ended};
ghost use Rattle.c_machine.specs.Moves.{FitsIn, fed, heard};

use crate::answered::hearing;
use crate::edits::hear;
use crate::outcome::Heard;
use crate::position::Position;
use crate::state::{Entry, State};
use crate::tops::{first_at, frame_size, has_args, result_shape};
use crate::wants::Answer;
use c_code::{Activation, Call, Placed, Waiting};
use c_code_fused::FusedCode;

impl Position {
    // What the answer alone does. One of another kind than the wanted one leads nowhere.
    #[inline(always)]
    pub(crate) fn take(&mut self, code: &FusedCode, placed: &Placed, answer: Answer)
        requires valid { IsValid code.now }
        requires fits { FitsIn (laid code.now placed.now) (config self.old) }
        requires room { length (values_of (config self.old)) < room_of self.old.values }
        ensures fed { config self.new ≡ fed (laid code.now placed.now) (config self.old) (told answer) }
        ensures values { room_of self.new.values ≡ room_of self.old.values }
        ensures waits { room_of self.new.waits.all ≡ room_of self.old.waits.all }
    {
        let State::Going(a) = &mut self.state else {
            self.take_elsewhere(code, answer);
            return;
        };
        let instr = &code.instrs()[a.at];
        let heard = hearing(instr, a, &self.values);
        match hear(heard, &mut self.values, answer) {
            Some(at) => a.at = at,
            None => self.end(heard),
        }
    }

    // The same where it isn't at an instruction.
    fn take_elsewhere(&mut self, code: &FusedCode, answer: Answer)
        requires elsewhere { IsElsewhere self.old.state }
        requires room { length (values_of (config self.old)) < room_of self.old.values }
        ensures fed { (placed : Places) → config self.new ≡
            fed (laid code.now placed) (config self.old) (told answer) }
        ensures values { room_of self.new.values ≡ room_of self.old.values }
        ensures waits { room_of self.new.waits.all ≡ room_of self.old.waits.all }
    {
        match self.state {
            State::Calling(call, _) => self.take_result(call, code, answer),
            State::Entering(entry) => self.take_frame(entry, code, answer),
            State::Closing(value, waiting) => self.take_closing(value, waiting),
            State::Starting(func) => self.take_first(func, code, answer),
            State::Going(_) | State::Done(_) | State::Lost => self.state = State::Lost,
        }
    }

    // The activation ends: where its function does, with the topmost value.
    fn end(&mut self, heard: Heard)
        requires room { length (held self.old.values) < room_of self.old.values }
        ensures ended { config self.new ≡ ended heard (held self.old.values) (held self.old.waits.all) }
        ensures values { room_of self.new.values ≡ room_of self.old.values }
        ensures waits { room_of self.new.waits.all ≡ room_of self.old.waits.all }
    {
        let Heard::Ends = heard else {
            self.state = State::Lost;
            return;
        };
        match self.values.pop() {
            Some(value) => self.give(value),
            None => self.state = State::Lost,
        }
    }

    // The result of a call that isn't run here takes the place of its arguments, and of its address.
    fn take_result(&mut self, call: Call, code: &FusedCode, answer: Answer)
        requires room { length (held self.old.values) < room_of self.old.values }
        ensures fed { (placed : Places) → config self.new ≡
            heard (laid code.now placed) (with_args (take_args call.args [] (held self.old.values))
            (awaiting call (held self.old.values) (held self.old.waits.all))) (told answer) }
        ensures values { room_of self.new.values ≡ room_of self.old.values }
        ensures waits { room_of self.new.waits.all ≡ room_of self.old.waits.all }
    {
        let Answer::Value(value) = answer else {
            self.state = State::Lost;
            return;
        };
        if !has_args(&self.values, call.args) || !result_shape(code, call.func).has_value(value) {
            self.state = State::Lost;
            return;
        }
        self.replace(call, value);
    }

    // The result of a thread's first function, where it has one.
    fn take_first(&mut self, func: Option<u16>, code: &FusedCode, answer: Answer)
        ensures fed { (placed : Places) → config self.new ≡
            fed (laid code.now placed) (Starting func (reverse (held self.old.values))) (told answer) }
        ensures values { room_of self.new.values ≡ room_of self.old.values }
        ensures waits { room_of self.new.waits.all ≡ room_of self.old.waits.all }
    {
        match func {
            Some(func) => self.take_first_result(func, code, answer),
            None => self.state = State::Lost,
        }
    }

    // A function that isn't run here gives the thread's result.
    fn take_first_result(&mut self, func: u16, code: &FusedCode, answer: Answer)
        ensures fed { (placed : Places) → config self.new ≡
            result_is (result_of (laid code.now placed) func) (told answer) }
        ensures values { room_of self.new.values ≡ room_of self.old.values }
        ensures waits { room_of self.new.waits.all ≡ room_of self.old.waits.all }
    {
        let Answer::Value(value) = answer else {
            self.state = State::Lost;
            return;
        };
        self.state = if result_shape(code, func).has_value(value) {
            State::Done(value)
        } else {
            State::Lost
        };
    }

    // A result takes the place of the arguments of its call, and of its address.
    fn replace(&mut self, call: Call, value: u64)
        requires room { length (held self.old.values) < room_of self.old.values }
        ensures going { config self.new ≡ Going call.then (value ∷
            uncovered call.indirect (drop call.args (held self.old.values))) (held self.old.waits.all) }
        ensures values { room_of self.new.values ≡ room_of self.old.values }
        ensures waits { room_of self.new.waits.all ≡ room_of self.old.waits.all }
    {
        self.uncover(call);
        self.values.push(value);
        self.state = State::Going(call.then);
    }

    // Takes the arguments of a call away, and its address.
    pub(crate) fn uncover(&mut self, call: Call)
        ensures values { held self.new.values ≡
            uncovered call.indirect (drop call.args (held self.old.values)) }
        ensures room { room_of self.new.values ≡ room_of self.old.values }
        ensures waits { self.new.waits ≡ self.old.waits }
        ensures state { self.new.state ≡ self.old.state }
    {
        self.values.drop_top(call.args as usize);
        if call.indirect {
            self.values.drop_top(1);
        }
    }

    // The body of a function begins in its frame.
    fn take_frame(&mut self, entry: Entry, code: &FusedCode, answer: Answer)
        ensures fed { (placed : Places) → config self.new ≡
            framed (laid code.now placed) entry.side entry.func (drop entry.args (held self.old.values))
            (held self.old.waits.all) (told answer) }
        ensures values { room_of self.new.values ≡ room_of self.old.values }
        ensures waits { room_of self.new.waits.all ≡ room_of self.old.waits.all }
    {
        let Answer::Frame(base) = answer else {
            self.state = State::Lost;
            return;
        };
        self.values.drop_top(entry.args as usize);
        self.state = match first_at(code, entry.func) {
            Some(at) => State::Going(Activation {
                at,
                base,
                size: frame_size(code, entry.func),
                side: entry.side,
            }),
            None => State::Lost,
        };
    }

    // The event that ends a crossing of the cut: the result goes to what waits for it.
    fn take_closing(&mut self, value: u64, waiting: Waiting)
        requires room { length (held self.old.values) < room_of self.old.values }
        ensures fed { (l : Laid) (x : Answers) →
            config self.new ≡ heard l (close value waiting (held self.old.values)
            (held self.old.waits.all)) x }
        ensures values { room_of self.new.values ≡ room_of self.old.values }
        ensures waits { room_of self.new.waits.all ≡ room_of self.old.waits.all }
    {
        match waiting {
            Waiting::ForValue(_) => self.state = State::Lost,
            Waiting::ForRet(call) => self.take_return(call, value),
            Waiting::ForUpRet(a, _) => {
                self.values.push(value);
                self.state = State::Going(a);
            }
            Waiting::ForBelow(call, _) => self.state = State::Calling(call, true),
            Waiting::ForOutside(_) => self.state = State::Done(value),
        }
    }

    // The return of a call that crossed the cut.
    fn take_return(&mut self, call: Call, value: u64)
        requires room { length (held self.old.values) < room_of self.old.values }
        ensures fed { (l : Laid) (x : Answers) →
            config self.new ≡ heard l (with_args (take_args call.args [] (held self.old.values))
            (returning value call (held self.old.waits.all))) x }
        ensures values { room_of self.new.values ≡ room_of self.old.values }
        ensures waits { room_of self.new.waits.all ≡ room_of self.old.waits.all }
    {
        if has_args(&self.values, call.args) {
            self.replace(call, value);
        } else {
            self.state = State::Lost;
        }
    }

    // Gives the result of a function to what waits for it.
    fn give(&mut self, value: u64)
        requires room { length (held self.old.values) < room_of self.old.values }
        ensures given { config self.new ≡ given value (held self.old.waits.all) (held self.old.values) }
        ensures values { room_of self.new.values ≡ room_of self.old.values }
        ensures waits { room_of self.new.waits.all ≡ room_of self.old.waits.all }
    {
        match self.waits.pop() {
            None => self.state = State::Done(value),
            Some(Waiting::ForValue(a)) => {
                self.values.push(value);
                self.state = State::Going(a);
            }
            Some(waiting) => self.state = State::Closing(value, waiting),
        }
    }
}

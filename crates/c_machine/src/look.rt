// What a thread wants next.

ghost use Rattle.std.specs.Prelude.{◌≡◌, ℕ, List, []};
ghost use Rattle.c_code.specs.Valid.{IsValid};
ghost use Rattle.c_code.specs.declared.activation.Waiting.{Waiting as Waits};
ghost use Rattle.c_code.specs.Machine.{Laid, Going, Under, action, close, take_args, with_args, returning};
ghost use Rattle.c_machine_stack.specs.Stacks.{held};
ghost use Rattle.c_machine.specs.Positions.{laid, config};
ghost use Rattle.c_machine.specs.Moves.{FitsIn};
ghost use Rattle.c_machine.specs.Wants.{shown};

use crate::act::act;
use crate::outcome::Outcome;
use crate::position::Position;
use crate::state::State;
use crate::tops::{frame_size, has_args};
use crate::wants::Want;
use c_code::{Activation, Call, Placed, Waiting};
use c_code_fused::FusedCode;
use marks::FaultKind;

impl Position {
    // What comes next; `None` where that is no mark and no call. A call is told at once.
    #[inline(always)]
    pub(crate) fn look(&self, code: &FusedCode, placed: &Placed) -> Option<Want>
        requires valid { IsValid code.now }
        requires fits { FitsIn (laid code.now placed.now) (config self.now) }
        ensures { result ≡ shown (laid code.now placed.now)
            (action (laid code.now placed.now) (config self.now)) }
    {
        if let State::Calling(call, _) = &self.state {
            return self.look_call(*call);
        }
        self.look_apart(code, placed)
    }

    // The same wherever it is.
    #[inline(never)]
    fn look_apart(&self, code: &FusedCode, placed: &Placed) -> Option<Want>
        requires valid { IsValid code.now }
        requires fits { FitsIn (laid code.now placed.now) (config self.now) }
        ensures { result ≡ shown (laid code.now placed.now)
            (action (laid code.now placed.now) (config self.now)) }
    {
        match &self.state {
            State::Going(a) => self.look_at(a, code, placed),
            State::Calling(call, _) => self.look_call(*call),
            State::Entering(entry) => Some(Want::Enter {
                func: entry.func,
                size: frame_size(code, entry.func),
            }),
            State::Closing(value, waiting) => self.look_closing(*value, *waiting),
            State::Starting(Some(func)) => Some(Want::Call { func: *func }),
            State::Starting(None) => Some(Want::Fault(FaultKind::BadCall.number())),
            State::Done(result) => Some(Want::Ended { result: *result }),
            State::Lost => None,
        }
    }

    // The same at an instruction.
    fn look_at(&self, a: &Activation, code: &FusedCode, placed: &Placed) -> Option<Want>
        requires valid { IsValid code.now }
        requires fits { FitsIn (laid code.now placed.now)
            (Going a.now (held self.now.values) (held self.now.waits.all)) }
        ensures { result ≡ shown (laid code.now placed.now)
            (action (laid code.now placed.now)
            (Going a.now (held self.now.values) (held self.now.waits.all))) }
    {
        let instr = &code.instrs()[a.at];
        match act(instr, a, &self.values, code, placed) {
            Outcome::Asks(want, _) => Some(want),
            Outcome::Silent(_, _) => None,
            Outcome::Pends(_) => None,
        }
    }

    // The same at a call.
    #[inline(always)]
    pub(crate) fn look_call(&self, call: Call) -> Option<Want>
        ensures { (l : Laid) (ws : List Waits) →
            result ≡ shown l (action l (Under call (held self.now.values) ws)) }
    {
        if has_args(&self.values, call.args) {
            Some(Want::Call { func: call.func })
        } else {
            None
        }
    }

    // The event that ends a crossing of the cut.
    fn look_closing(&self, value: u64, waiting: Waiting) -> Option<Want>
        ensures { (l : Laid) (ws : List Waits) →
            result ≡ shown l (close value waiting (held self.now.values) ws) }
    {
        match waiting {
            Waiting::ForValue(_) => None,
            Waiting::ForRet(call) => self.look_return(call, value),
            Waiting::ForUpRet(_, _) => Some(Want::UpRet { result: value }),
            Waiting::ForBelow(_, _) => Some(Want::UpRet { result: value }),
            Waiting::ForOutside(_) => Some(Want::UpRet { result: value }),
        }
    }

    // The return of a call that crossed the cut.
    fn look_return(&self, call: Call, value: u64) -> Option<Want>
        ensures { (l : Laid) (ws : List Waits) →
            result ≡ shown l (with_args (take_args call.args [] (held self.now.values))
            (returning value call ws)) }
    {
        if has_args(&self.values, call.args) {
            Some(Want::Ret {
                func: call.func,
                result: value,
            })
        } else {
            None
        }
    }
}

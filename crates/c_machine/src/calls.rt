//! What a thread is asked and told.

ghost use Rattle.std.specs.Prelude.{◌≡◌, ◌^◌, ℕ, ◌<◌, ◌≤◌, false, true, Option, [], ◌∷◌, length, Some, IfOk, IfSome};
ghost use Rattle.source_limits.specs.Limits.{most_values};
ghost use Rattle.marks.specs.declared.side.Side.TheVariants.{Replay};
ghost use Rattle.memory_map.specs.declared.placed.Placed.{Placed as Places};
ghost use Rattle.c_code.specs.Machine.{Laid, Done, Starting, action, callee as callee_of};
ghost use Rattle.c_code.specs.Typed.{StartsWell};
ghost use Rattle.c_code.specs.Valid.{start_sig};
ghost use Rattle.c_machine.specs.Positions.{laid};
ghost use Rattle.c_machine.specs.declared.wants.Answer.{Answer as Answers};
ghost use Rattle.c_machine.specs.Wants.{shown, told};
ghost use Rattle.c_machine.specs.Answers.{IsNeeded};
ghost use Rattle.c_machine.specs.declared.wants.Want.TheVariants.{Call as WantedCall, Ret as WantedRet};
ghost use Rattle.c_machine.specs.Readers.{args_of, func_at};
ghost use Rattle.c_machine.specs.Callers.{IsAtCall, IsAtReturn, MayGoUp, MayRun, crosses_at, side_at};
ghost use Rattle.c_machine.specs.Moves.{MayBegin, MayFeed, IsInside, open_on, after_answer, after_begin, after_call};

use crate::position::Position;
use crate::state::State;
use crate::thread::Thread;
use crate::tops::{callee, check};
use crate::waits::Waits;
use crate::wants::{Answer, Want};
use c_code::{Placed, Side};
use c_code_fused::FusedCode;
use c_machine_stack::Stack;
use std::alloc::{AllocError, Global};

// The number of the type `int (void *)`.
const START_SIG: u32 = 0;

/// The function that a thread with this address begins with: that of the source at the address, where it takes a pointer and gives
/// an int.
pub fn start_of(code: &FusedCode, address: u64) -> Option<u16>
    ensures is { (placed : Places) → result ≡ callee_of (laid code.now placed) start_sig address }
    ensures well { (placed : Places) (arg : ℕ) → arg < 2 ^ 64 →
        StartsWell (laid code.now placed) result (arg ∷ []) }
{
    check(code);
    callee(code, START_SIG, address)
}

impl Thread {
    /// The thread with this number, in no function. It takes the memory for as many activations as `depth` on each side;
    /// no other call takes any.
    pub fn new(alloc: Global, number: u8, depth: u16) -> Result<Thread, AllocError>
        ensures new { IfOk result (λ thread. thread ≡ record {
          number = number;
          depth = depth;
          made =
              false;
          config = Done 0;
        }) }
        ensures inside { IfOk result (λ thread. (l : Laid) → IsInside l thread.config) }
    {
        let waits = 2 * depth as usize;
        let position = Position {
            state: State::Done(0),
            values: Stack::new(alloc, 64 * (waits + 2))?,
            waits: Waits::new(alloc, waits)?,
        };
        Ok(Thread {
            number,
            depth,
            position,
        })
    }

    /// The thread starts with a call of this function through its address, below the cut; `None` where the address is that of none,
    /// which is its fault.
    pub fn start(&mut self, code: &FusedCode, func: Option<u16>, args: &[u64])
        requires few { length args.now ≤ most_values }
        requires well { (placed : Places) → StartsWell (laid code.now placed) func args.now }
        ensures started { self.new ≡ record self.old { made = false; config = Starting func args.now } }
        ensures inside { (placed : Places) → IsInside (laid code.now placed) self.new.config }
    {
        check(code);
        self.position.start(func, args);
    }

    /// The thread's next mark or call.
    #[inline(always)]
    pub fn next(&self, code: &FusedCode, placed: &Placed) -> Want
        requires inside { IsInside (laid code.now placed.now) self.now.config }
        ensures want { shown (laid code.now placed.now)
            (action (laid code.now placed.now) self.now.config) ≡ Some result }
        ensures call { (f : ℕ) → result ≡ WantedCall f →
            IsAtCall (laid code.now placed.now) self.now.config f }
        ensures ret { (f v : ℕ) → result ≡ WantedRet f v →
            IsAtReturn (laid code.now placed.now) self.now.config f v }
        ensures answers { (answer : Answers) → IsNeeded result answer →
            MayFeed (laid code.now placed.now) self.now.config (told answer) }
    {
        check(code);
        match self.position.look(code, placed) {
            Some(want) => want,
            None => unreachable!("the code says what comes next"),
        }
    }

    // The same, in one place.
    #[inline(never)]
    pub(crate) fn next_apart(&self, code: &FusedCode, placed: &Placed) -> Want
        requires inside { IsInside (laid code.now placed.now) self.now.config }
        ensures want { shown (laid code.now placed.now)
            (action (laid code.now placed.now) self.now.config) ≡ Some result }
        ensures call { (f : ℕ) → result ≡ WantedCall f →
            IsAtCall (laid code.now placed.now) self.now.config f }
        ensures ret { (f v : ℕ) → result ≡ WantedRet f v →
            IsAtReturn (laid code.now placed.now) self.now.config f v }
        ensures answers { (answer : Answers) → IsNeeded result answer →
            MayFeed (laid code.now placed.now) self.now.config (told answer) }
    {
        self.next(code, placed)
    }

    /// What came of the next mark or call. The thread goes on up to the one after it.
    #[inline(always)]
    pub fn feed(&mut self, code: &FusedCode, placed: &Placed, answer: Answer)
        requires inside { IsInside (laid code.now placed.now) self.old.config }
        requires may { MayFeed (laid code.now placed.now) self.old.config (told answer) }
        ensures fed { self.new ≡ after_answer (laid code.now placed.now) self.old (told answer) }
        ensures inside { IsInside (laid code.now placed.now) self.new.config }
    {
        let _want = self.go_on(code, placed, answer);
    }

    /// The same, and then the thread's next mark or call, as `next` says it.
    #[inline(always)]
    pub fn feed_next(&mut self, code: &FusedCode, placed: &Placed, answer: Answer) -> Want
        requires inside { IsInside (laid code.now placed.now) self.old.config }
        requires may { MayFeed (laid code.now placed.now) self.old.config (told answer) }
        ensures fed { self.new ≡ after_answer (laid code.now placed.now) self.old (told answer) }
        ensures inside { IsInside (laid code.now placed.now) self.new.config }
        ensures want { shown (laid code.now placed.now)
            (action (laid code.now placed.now) self.new.config) ≡ Some result }
        ensures call { (f : ℕ) → result ≡ WantedCall f →
            IsAtCall (laid code.now placed.now) self.new.config f }
        ensures ret { (f v : ℕ) → result ≡ WantedRet f v →
            IsAtReturn (laid code.now placed.now) self.new.config f v }
        ensures answers { (next : Answers) → IsNeeded result next →
            MayFeed (laid code.now placed.now) self.new.config (told next) }
    {
        match self.go_on(code, placed, answer) {
            Some(want) => want,
            None => self.next_apart(code, placed),
        }
    }

    // The thread goes on up to its next mark or call, which is told where it is a mark of an instruction.
    #[inline(always)]
    fn go_on(&mut self, code: &FusedCode, placed: &Placed, answer: Answer) -> Option<Want>
        requires inside { IsInside (laid code.now placed.now) self.old.config }
        requires may { MayFeed (laid code.now placed.now) self.old.config (told answer) }
        ensures fed { self.new ≡ after_answer (laid code.now placed.now) self.old (told answer) }
        ensures inside { IsInside (laid code.now placed.now) self.new.config }
        ensures want { IfSome result (λ want. shown (laid code.now placed.now)
            (action (laid code.now placed.now) self.new.config) ≡ Some want) }
    {
        check(code);
        self.position.take(code, placed, answer);
        self.position.settle(code, placed)
    }

    /// The event of the call that is next was made: the thread is below the cut.
    pub fn cross(&mut self, code: &FusedCode, placed: &Placed)
        requires crosses { crosses_at (laid code.now placed.now) self.old.config ≡ true }
        ensures crossed { self.new ≡ after_call self.old }
    {
        let _crosses = self.crosses(code, placed);
        self.position.cross();
    }

    /// The function begins on the side: at the call that is next, as the thread's first one, or outside of all calls. With `up` it
    /// is called back. The next want is its Enter.
    pub fn begin(
        &mut self,
        code: &FusedCode,
        placed: &Placed,
        func: u16,
        args: &[u64],
        side: Side,
        up: bool,
    )
        requires inside { IsInside (laid code.now placed.now) self.old.config }
        requires may { MayBegin (laid code.now placed.now) self.old.config func args.now side up }
        requires depth { open_on side self.old.config < self.old.depth }
        ensures begun { self.new ≡ after_begin (laid code.now placed.now) self.old func args.now side up }
        ensures inside { IsInside (laid code.now placed.now) self.new.config }
    {
        check(code);
        self.position.begin(code, placed, func, args, side, up);
    }

    /// The function of the call that is next begins on its side, with the arguments that the thread has. The next want is its Enter.
    pub fn run(&mut self, code: &FusedCode, placed: &Placed)
        requires inside { IsInside (laid code.now placed.now) self.old.config }
        requires may { MayRun (laid code.now placed.now) self.old.config }
        requires depth { open_on (side_at (laid code.now placed.now) self.old.config) self.old.config <
            self.old.depth }
        ensures run { self.new ≡ after_begin (laid code.now placed.now) self.old (func_at self.old.config)
            (args_of self.old.config) (side_at (laid code.now placed.now) self.old.config) false }
        ensures inside { IsInside (laid code.now placed.now) self.new.config }
    {
        check(code);
        self.position.run(code, placed);
    }

    /// System code calls the function of its call that is next back, with the arguments that the thread has. The next want is its
    /// Enter.
    pub fn go_up(&mut self, code: &FusedCode, placed: &Placed)
        requires inside { IsInside (laid code.now placed.now) self.old.config }
        requires may { MayGoUp (laid code.now placed.now) self.old.config }
        requires depth { open_on Replay self.old.config < self.old.depth }
        ensures up { self.new ≡ after_begin (laid code.now placed.now) self.old (func_at self.old.config)
            (args_of self.old.config) Replay true }
        ensures inside { IsInside (laid code.now placed.now) self.new.config }
    {
        check(code);
        self.position.go_up(code, placed);
    }
}

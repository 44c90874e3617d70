//! What the threads of a run are told.

ghost use Rattle.std.specs.Prelude.{◌≡◌, ◌≢◌, ℕ, ◌<◌, ◌∷◌, length, slice_set, IfOk, OnOk, OnErr};
ghost use Rattle.memory_map.specs.declared.placed.Placed.{Placed as Places};
ghost use Rattle.marks.specs.Wants.{Go, Value, Frame};
ghost use Rattle.c_machine.specs.Accesses.{Makes};
ghost use Rattle.c_machine.specs.Positions.{laid};
ghost use Rattle.c_machine.specs.Follows.{MayTell, after_report, frame_report};
ghost use Rattle.c_code.specs.Machine.{Config};
ghost use Rattle.c_code.specs.MarkLists.{Split, step};
ghost use Rattle.c_machine.specs.Moves.{IsInside};
ghost use Rattle.c_machine.specs.Readers.{args_of, side_of};
ghost use Rattle.c_machine.specs.Wants.{told};
ghost use Rattle.recorder_threads.specs.Threads.{AreInside, AreThreadsOf, IsBegun, IsNextOf, thread_at};
ghost use Rattle.recorder_threads.specs.Wants.{IsNextTold};
ghost use Rattle.recorder_threads.specs.Telling.{RestsAt};
ghost use Rattle.recorder_threads.specs.Answers.{IsCall, IsCallTo, IsCalledBack, IsNoCall, IsPlain, IsStart};

use crate::look::{next_across, next_after, next_after_accesses};
use crate::threads::{MOST_OPEN, Threads};
use crate::wants::Next;
use c_code::Placed;
use c_code_fused::FusedCode;
use c_machine::{Accesses, Answer, Thread, Want as Shown, start_of};
use std::alloc::{AllocError, Global};

impl Threads {
    /// The mark of the thread was made, which tells it no more: a round, a store, the end of a frame, a block given back, a Ret or UpRet
    /// that its code comes to.
    pub fn go(&mut self, code: &FusedCode, placed: &Placed, thread: u8)
        requires { IsPlain (laid code.now placed.now) self.old thread IsNoCall Go }
        ensures { (a : IsPlain (laid code.now placed.now) self.old thread IsNoCall Go) →
            AreThreadsOf a.next.world (a.next.mark ∷ a.next.past) self.new }
    {
        let _next = next_after(&mut self.threads[thread as usize], code, placed, Answer::Go);
    }

    /// The event of the call of the interface was made that the code of the thread makes above the cut.
    pub fn cross(&mut self, code: &FusedCode, placed: &Placed, thread: u8)
        requires { IsPlain (laid code.now placed.now) self.old thread IsCall Go }
        ensures { (a : IsPlain (laid code.now placed.now) self.old thread IsCall Go) →
            AreThreadsOf a.next.world (a.next.mark ∷ a.next.past) self.new }
    {
        self.threads[thread as usize].cross(code, placed);
    }

    /// The same where the call is one of this function: what the code of the thread comes to then.
    #[inline(always)]
    pub fn next_across(&mut self, code: &FusedCode, placed: &Placed, thread: u8, func: u16) -> Next
        requires { IsPlain (laid code.now placed.now) self.old thread (IsCallTo func) Go }
        ensures stand { (a : IsPlain (laid code.now placed.now) self.old thread (IsCallTo func) Go) →
            AreThreadsOf a.next.world (a.next.mark ∷ a.next.past) self.new }
        ensures next { IsNextOf (laid code.now placed.now) self.new thread result }
    {
        next_across(&mut self.threads[thread as usize], code, placed, func)
    }

    /// The mark of the thread gave it this: the value that was loaded, the address of a block, the result of a Ret or Step that started
    /// no thread.
    pub fn give(&mut self, code: &FusedCode, placed: &Placed, thread: u8, value: u64)
        requires { IsPlain (laid code.now placed.now) self.old thread IsNoCall (Value value) }
        ensures { (a : IsPlain (laid code.now placed.now) self.old thread IsNoCall (Value value)) →
            AreThreadsOf a.next.world (a.next.mark ∷ a.next.past) self.new }
    {
        let answer = Answer::Value(value);
        let _next = next_after(&mut self.threads[thread as usize], code, placed, answer);
    }

    /// The mark of the thread gave its code this answer, which is no frame: what that comes to then.
    #[inline(always)]
    pub fn next_after(
        &mut self,
        code: &FusedCode,
        placed: &Placed,
        thread: u8,
        answer: Answer,
    ) -> Next
        requires plain { IsPlain (laid code.now placed.now) self.old thread IsNoCall (told answer) }
        requires no_frame { (frame : ℕ) → answer ≢ Answer.Frame frame }
        ensures stand { (a : IsPlain (laid code.now placed.now) self.old thread IsNoCall (told answer)) →
            AreThreadsOf a.next.world (a.next.mark ∷ a.next.past) self.new }
        ensures next { IsNextOf (laid code.now placed.now) self.new thread result }
    {
        next_after(&mut self.threads[thread as usize], code, placed, answer)
    }

    /// The function that the code of the thread enters, or calls through an address, has its frame at this address: what the code comes
    /// to then.
    #[inline(always)]
    pub fn next_in_frame(
        &mut self,
        code: &FusedCode,
        placed: &Placed,
        thread: u8,
        frame: u64,
    ) -> Next
        requires { IsPlain (laid code.now placed.now) self.old thread IsNoCall (Frame frame) }
        ensures stand { (a : IsPlain (laid code.now placed.now) self.old thread IsNoCall (Frame frame)) →
            AreThreadsOf a.next.world (a.next.mark ∷ a.next.past) self.new }
        ensures next { IsNextOf (laid code.now placed.now) self.new thread result }
    {
        enter(&mut self.threads[thread as usize], code, placed, frame)
    }

    /// The thread goes on in one stretch from the mark that it wants next, as long as that is an access or a round that `accesses`
    /// makes: what its code comes to then.
    #[inline(always)]
    pub fn make_accesses<A: Accesses>(
        &mut self,
        code: &FusedCode,
        placed: &Placed,
        thread: u8,
        accesses: &mut A,
    ) -> Next
        requires started { thread < length self.old }
        requires inside { AreInside (laid code.now placed.now) self.old }
        ensures made { Makes A.makes (laid code.now placed.now) (side_of (thread_at self.old thread).config)
            accesses.old (thread_at self.old thread) accesses.new (thread_at self.new thread) }
        ensures others { self.new ≡ slice_set self.old thread (thread_at self.new thread) }
        ensures inside { AreInside (laid code.now placed.now) self.new }
        ensures next { IsNextOf (laid code.now placed.now) self.new thread result }
    {
        next_after_accesses(&mut self.threads[thread as usize], code, placed, accesses)
    }

    /// The Up of the function that the code of the thread calls through an address was made.
    pub fn call_back(&mut self, code: &FusedCode, placed: &Placed, thread: u8)
        requires { IsCalledBack (laid code.now placed.now) self.old thread }
        ensures { (a : IsCalledBack (laid code.now placed.now) self.old thread) →
            AreThreadsOf a.plain.next.world (a.plain.next.mark ∷ a.plain.next.past) self.new }
    {
        self.threads[thread as usize].go_up(code, placed);
    }

    /// The call of `r2_spawn` by the thread started one more, with the address of its function and an argument, and gave its number,
    /// which is how many there were.
    ///
    /// `AllocError` where there is no memory; all threads are as they were then.
    pub fn start(
        &mut self,
        alloc: Global,
        code: &FusedCode,
        placed: &Placed,
        thread: u8,
        address: u64,
        argument: u64,
    ) -> Result<(), AllocError>
        requires { IsStart (laid code.now placed.now) self.old thread address argument }
        ensures started { (a : IsStart (laid code.now placed.now) self.old thread address argument) →
            OnOk result (AreThreadsOf a.next.world (a.next.mark ∷ a.next.past) self.new) }
        ensures unchanged { OnErr result (self.new ≡ self.old) }
    {
        let number = self.threads.len();
        let begun = begun(alloc, code, number as u8, address, argument)?;
        self.threads.push(begun)?;
        let answer = Answer::Value(number as u64);
        let _next = next_after(&mut self.threads[thread as usize], code, placed, answer);
        Ok(())
    }
}

// A thread that begins with the function at the address, which is given the argument.
fn begun(
    alloc: Global,
    code: &FusedCode,
    number: u8,
    address: u64,
    argument: u64,
) -> Result<Thread, AllocError>
    ensures { (placed : Places) → IfOk result (IsBegun (laid code.now placed) number address argument) }
{
    let mut thread = Thread::new(alloc, number, MOST_OPEN)?;
    thread.start(code, start_of(code, address), &[argument]);
    Ok(thread)
}

// The function that is to be entered has its frame there; at a call it begins first. What the code comes to then.
#[inline(always)]
fn enter(thread: &mut Thread, code: &FusedCode, placed: &Placed, frame: u64) -> Next
    requires inside { IsInside (laid code.now placed.now) thread.old.config }
    requires may { MayTell (laid code.now placed.now) thread.old (frame_report thread.old.config frame) }
    ensures entered { thread.new ≡ after_report (laid code.now placed.now) thread.old
        (frame_report thread.old.config frame) }
    ensures inside { IsInside (laid code.now placed.now) thread.new.config }
    ensures next { (c : Config) → RestsAt (laid code.now placed.now) c thread.new →
        IsNextTold (laid code.now placed.now) (args_of thread.new.config) result
        (step Split (laid code.now placed.now) c) }
{
    if let Shown::Call { .. } = thread.next(code, placed) {
        thread.run(code, placed);
    }
    next_after(thread, code, placed, Answer::Frame(frame))
}

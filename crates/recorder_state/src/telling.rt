//! What the state is told of a step that was made in memory.

ghost use Rattle.std.specs.Prelude.{◌≡◌, ◌+◌, ◌∷◌, IfOk, OnOk};
ghost use Rattle.marks.specs.Wants.{Value};
ghost use Rattle.c_machine.specs.Wants.{told};
ghost use Rattle.recorder_threads.specs.Answers.{IsNoCall, IsPlain};
ghost use Rattle.recorder_threads.specs.Threads.{AreThreadsOf, IsNextOf};
ghost use Rattle.whole_runs.specs.World.{World};
ghost use Rattle.recorder_state.specs.Inputs.{world_of};
ghost use Rattle.recorder_state.specs.Plain.{IsPlainStep, IsResult, IsResultStep, IsReturnStep, IsStepTold, starts_thread};
ghost use Rattle.recorder_state.specs.Stands.{IsGoneOn, IsReached, KeepsSystem};

use crate::inputs::Inputs;
use crate::known::Known;
use crate::state::RunState;
use c_code::Side;
use c_machine::Answer;
use recorder_threads::{Next, Threads};
use std::alloc::{AllocError, Global};

// The number of `r2_spawn`.
const SPAWN: u16 = 2;

impl RunState {
    /// Goes on after a step of the thread on this side which is no event, and in which no call comes to its result: memory was told of
    /// it, and the thread is given this answer.
    #[inline(always)]
    pub fn go_on(&mut self, inputs: Inputs<'_>, thread: u8, side: Side, answer: Answer)
        requires { IsPlainStep (world_of inputs) self.old thread side (told answer) }
        ensures reached { IsReached (world_of inputs.entry) self.new }
        ensures steps { self.new.steps ≡ self.old.steps + 1 }
    {
        let next = self.go_on_to(inputs, thread, side, answer);
        self.keep(thread, next);
    }

    /// The same, and what the code of the thread comes to then, which isn't kept.
    #[inline(always)]
    pub fn go_on_to(&mut self, inputs: Inputs<'_>, thread: u8, side: Side, answer: Answer) -> Next
        requires { IsPlainStep (world_of inputs) self.old thread side (told answer) }
        ensures gone_on { IsGoneOn (world_of inputs.entry) self.new thread result }
        ensures steps { self.new.steps ≡ self.old.steps + 1 }
        ensures system { KeepsSystem result self.old.system self.new.system }
    {
        let next = tell(&mut self.threads, inputs, thread, answer);
        if let Side::Replay = side {
            self.stamps.step(thread);
        }
        self.end_step_at(inputs, thread, next);
        next
    }

    /// Keeps what the code of the thread comes to.
    #[inline(always)]
    pub fn keep(&mut self, thread: u8, next: Next)
        ensures reached { (w : World) → IsGoneOn w self.old thread next → IsReached w self.new }
        ensures steps { self.new.steps ≡ self.old.steps }
    {
        self.known = Some(Known { thread, next });
    }

    /// Goes on after a step in which the thread's call of a builtin or external comes to this value: all but threads and system were told
    /// of it.
    ///
    /// `AllocError` where there is no memory for a thread that starts, or for a mutex that is taken.
    pub fn give(
        &mut self,
        alloc: Global,
        inputs: Inputs<'_>,
        thread: u8,
        func: u16,
        value: u64,
    ) -> Result<(), AllocError>
        requires { IsResultStep (world_of inputs) self.old thread func value (Value value) }
        ensures reached { OnOk result (IsReached (world_of inputs.entry) self.new) }
        ensures steps { OnOk result (self.new.steps ≡ self.old.steps + 1) }
    {
        self.system.note(thread, func, self.threads.args(thread))?;
        let next = give_to(&mut self.threads, alloc, inputs, thread, func, value)?;
        self.end_step_known(inputs, thread, next);
        Ok(())
    }

    /// Goes on after the Ret of a function with a body: all but threads and system were told of it.
    ///
    /// `AllocError` where there is no memory.
    #[inline(always)]
    pub fn give_back(&mut self, inputs: Inputs<'_>, thread: u8, func: u16) -> Result<(), AllocError>
        requires { IsReturnStep (world_of inputs) self.old thread func }
        ensures reached { OnOk result (IsReached (world_of inputs.entry) self.new) }
        ensures steps { OnOk result (self.new.steps ≡ self.old.steps + 1) }
    {
        self.system.note(thread, func, self.threads.args(thread))?;
        let next = self
            .threads
            .next_after(inputs.code, inputs.placed, thread, Answer::Go);
        self.end_step_known(inputs, thread, next);
        Ok(())
    }

    /// Counts a step of the thread that all but the system were told of, and tells it where the thread has ended with it.
    pub fn end_step(&mut self, inputs: Inputs<'_>, thread: u8)
        requires { IsStepTold (world_of inputs) self.old thread }
        ensures reached { IsReached (world_of inputs.entry) self.new }
        ensures steps { self.new.steps ≡ self.old.steps + 1 }
    {
        let next = self.threads.want(inputs.code, inputs.placed, thread);
        self.end_step_known(inputs, thread, next);
    }

    /// The same where the code of the thread is known to have come to this.
    #[inline(always)]
    pub fn end_step_known(&mut self, inputs: Inputs<'_>, thread: u8, next: Next)
        requires told { IsStepTold (world_of inputs) self.old thread }
        requires next { IsNextOf (world_of inputs).laid self.old.threads thread next }
        ensures reached { IsReached (world_of inputs.entry) self.new }
        ensures steps { self.new.steps ≡ self.old.steps + 1 }
    {
        self.end_step_at(inputs, thread, next);
        self.keep(thread, next);
    }

    // The same, which isn't kept.
    #[inline(always)]
    fn end_step_at(&mut self, inputs: Inputs<'_>, thread: u8, next: Next)
        requires told { IsStepTold (world_of inputs) self.old thread }
        requires next { IsNextOf (world_of inputs).laid self.old.threads thread next }
        ensures gone_on { IsGoneOn (world_of inputs.entry) self.new thread next }
        ensures steps { self.new.steps ≡ self.old.steps + 1 }
        ensures system { KeepsSystem next self.old.system self.new.system }
    {
        if let Next::Ended { result } = next {
            self.system.end(thread, result);
        }
        self.known = None;
        self.steps += 1;
    }
}

// Tells the thread of a mark that gives its code this answer: what that comes to then.
#[inline(always)]
fn tell(threads: &mut Threads, inputs: Inputs<'_>, thread: u8, answer: Answer) -> Next
    requires { IsPlain (world_of inputs).laid threads.old thread IsNoCall (told answer) }
    ensures stand { (a : IsPlain (world_of inputs.entry).laid threads.old thread IsNoCall (told answer)) →
        AreThreadsOf a.next.world (a.next.mark ∷ a.next.past) threads.new }
    ensures next { IsNextOf (world_of inputs.entry).laid threads.new thread result }
{
    match answer {
        Answer::Frame(frame) => threads.next_in_frame(inputs.code, inputs.placed, thread, frame),
        answer => threads.next_after(inputs.code, inputs.placed, thread, answer),
    }
}

// Gives the thread the value of its call, which may start one more thread: what its code comes to then.
fn give_to(
    threads: &mut Threads,
    alloc: Global,
    inputs: Inputs<'_>,
    thread: u8,
    func: u16,
    value: u64,
) -> Result<Next, AllocError>
    requires { IsResult (world_of inputs).laid threads.old thread func value }
    ensures stand { OnOk result ((a : IsResult (world_of inputs.entry).laid threads.old thread func value) →
        AreThreadsOf a.next.world (a.next.mark ∷ a.next.past) threads.new) }
    ensures next { IfOk result (IsNextOf (world_of inputs.entry).laid threads.new thread) }
{
    if is_start(func, value) {
        let args = threads.args(thread);
        let address = args[0];
        let argument = args[1];
        threads.start(alloc, inputs.code, inputs.placed, thread, address, argument)?;
        return Ok(threads.want(inputs.code, inputs.placed, thread));
    }
    let answer = Answer::Value(value);
    Ok(threads.next_after(inputs.code, inputs.placed, thread, answer))
}

// Whether a call of the function that comes to this value starts a thread.
fn is_start(func: u16, value: u64) -> bool
    ensures { result ≡ starts_thread func value }
{
    func == SPAWN && value != u64::MAX
}

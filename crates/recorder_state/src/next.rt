//! What comes next.

ghost use Rattle.std.specs.Prelude.{◌≡◌, ◌<◌, length, IfSome, None};
ghost use Rattle.system_side.specs.Schedule.{wish_at};
ghost use Rattle.recorder_system.specs.Stands.{ready_in};
ghost use Rattle.recorder_threads.specs.Threads.{IsNextOf};
ghost use Rattle.recorder_state.specs.Inputs.{world_of};
ghost use Rattle.recorder_state.specs.Stands.{IsReached};
ghost use Rattle.recorder_state.specs.Turns.{IsTried, IsTrying, IsTurn, asked_func};

use crate::inputs::Inputs;
use crate::state::RunState;
use crate::turn::Turn;
use recorder_threads::{Next, Want};
use whole_runs::{Ending, Halt};

// The number of a run's only thread.
const FIRST: u8 = 0;

impl RunState {
    /// What comes next: the run ends, or a thread makes a step. A thread that has to wait is blocked on the way.
    pub fn next(&mut self, inputs: Inputs<'_>) -> Turn
        requires { IsReached (world_of inputs) self.old }
        ensures turn { IsTurn (world_of inputs.entry) self.new result }
        ensures steps { self.new.steps ≡ self.old.steps }
    {
        if let Some(turn) = self.known_step(inputs) {
            return turn;
        }
        if self.system.all_ended() {
            return Turn::Ended(Ending::Done);
        }
        if self.steps == inputs.file.budget {
            return Turn::Ended(Ending::Halted(Halt::Budget));
        }
        let wish = self.system.wish(self.steps);
        self.pick(inputs, wish)
    }

    // The step of a run's only thread, where that is known, waits for no result, and is within the budget: no schedule is asked.
    #[inline(always)]
    fn known_step(&self, inputs: Inputs<'_>) -> Option<Turn>
        requires { IsReached (world_of inputs) self.now }
        ensures { IfSome result (IsTurn (world_of inputs.entry) self.now) }
    {
        if self.threads.count() != 1 || self.steps == inputs.file.budget {
            return None;
        }
        let known = self.known?;
        let Next::Wants { side, want } = known.next else {
            return None;
        };
        match asked(want) {
            Some(_) => None,
            None => Some(Turn::Step {
                thread: FIRST,
                side,
                want,
            }),
        }
    }

    // The step of the first thread that can make one, from the one that is wished for on.
    fn pick(&mut self, inputs: Inputs<'_>, wish: u8) -> Turn
        requires trying { IsTrying (world_of inputs) self.old }
        requires wish { wish ≡ wish_at inputs.file.now.schedule self.old.steps }
        ensures turn { IsTurn (world_of inputs.entry) self.new result }
        ensures steps { self.new.steps ≡ self.old.steps }
    {
        while let Some(thread) = self.system.pick(wish) {
            if let Some(turn) = self.turn_of(inputs, thread) {
                return turn;
            }
        }
        Turn::Ended(Ending::Halted(Halt::Blocked))
    }

    // The step of a thread that is tried; where it has to wait, it's blocked.
    fn turn_of(&mut self, inputs: Inputs<'_>, thread: u8) -> Option<Turn>
        requires { IsTried (world_of inputs) self.old thread }
        ensures turn { IfSome result (IsTurn (world_of inputs.entry) self.new) }
        ensures blocked { result ≡ None → IsTrying (world_of inputs.entry) self.new }
        ensures steps { self.new.steps ≡ self.old.steps }
        ensures fewer { result ≡ None →
            ready_in self.new.system.threads < ready_in self.old.system.threads }
    {
        match self.next_of(inputs, thread) {
            Next::Wants { side, want } => {
                if let Some(func) = asked(want) {
                    if self.system.waits(thread, func, self.threads.args(thread)) {
                        return None;
                    }
                }
                Some(Turn::Step { thread, side, want })
            }
            Next::Ended { .. } => unreachable!("a thread that is tried goes on"),
        }
    }

    // What the code of a thread comes to.
    fn next_of(&self, inputs: Inputs<'_>, thread: u8) -> Next
        requires reached { IsReached (world_of inputs) self.now }
        requires started { thread < length self.now.threads }
        ensures { IsNextOf (world_of inputs.entry).laid self.now.threads thread result }
    {
        if let Some(known) = self.known {
            if known.thread == thread {
                return known.next;
            }
        }
        self.threads.want(inputs.code, inputs.placed, thread)
    }
}

// The function of a call of a builtin or external whose result is waited for.
fn asked(want: Want) -> Option<u16>
    ensures { result ≡ asked_func want }
{
    match want {
        Want::Give { func } | Want::Step { func, .. } => Some(func),
        Want::Turn
        | Want::Load { .. }
        | Want::Store { .. }
        | Want::Enter { .. }
        | Want::Leave
        | Want::Alloc { .. }
        | Want::Free { .. }
        | Want::Call { .. }
        | Want::Return { .. }
        | Want::CallBack { .. }
        | Want::UpReturn { .. }
        | Want::Fault(_) => None,
    }
}

//! All threads of a run.

ghost use Rattle.std.specs.Prelude.{◌≡◌, ◌<◌, true, [], List, length, IfOk};
ghost use Rattle.marks.specs.Marks.{Mark};
ghost use Rattle.c_code.specs.Machine.{func_of};
ghost use Rattle.c_code.specs.MarkLists.{takes_values};
ghost use Rattle.c_machine.specs.Positions.{laid};
ghost use Rattle.whole_runs.specs.World.{World, main_of};
ghost use Rattle.whole_runs.specs.Threads.{comes, in_replay_mode as stands_above, result_of};
ghost use Rattle.recorder_threads.specs.Threads.{AreInside, AreThreadsOf, args_at};
ghost use Rattle.recorder_threads.specs.Wants.{IsNextTold};
ghost use Rattle.recorder_threads.specs.Telling.{stands_at};

use crate::look::next_of;
use crate::wants::{Next, Want};
use c_code::{Placed, Side};
use c_code_fused::FusedCode;
use c_machine::Thread;
use std::alloc::{AllocError, Global};
use std::marker::Model;

/// As many activations as a thread may have on a side: one for each frame, and one that was called back and has none yet.
pub(crate) const MOST_OPEN: u16 = 257;

/// The threads of a run that were started so far, by number. All calls of one value are given the same code and places.
#[derive(Drop)]
pub struct Threads {
    pub(crate) threads: Vec<Thread>,
}

impl Model for Threads {
    ghost use Rattle.std.specs.Prelude.{List};
    ghost use Rattle.c_machine.specs.Moves.{ThreadState};

    ghost Value = { List ThreadState };

    ghost view = { λ t. t.threads.items };
}

impl Threads {
    /// Thread 0 alone, before a run: it begins with the function `main`, the number of `main` in the code.
    pub fn new(alloc: Global, code: &FusedCode, main: u16) -> Result<Threads, AllocError>
        requires main { main ≡ main_of code.now }
        requires params { takes_values (func_of code.now main) [] ≡ true }
        ensures { (w : World) → w.laid.code ≡ code.now → IfOk result (AreThreadsOf w []) }
    {
        let mut first = Thread::new(alloc, 0, MOST_OPEN)?;
        first.start(code, Some(main), &[]);
        let mut threads = Vec::new(alloc);
        threads.push(first)?;
        Ok(Threads { threads })
    }

    /// How many were started.
    pub fn count(&self) -> usize
        ensures { result ≡ length self.now }
    {
        self.threads.len()
    }

    /// What the code of the thread wants next, and on which side of the cut; or what its first function has returned.
    pub fn want(&self, code: &FusedCode, placed: &Placed, thread: u8) -> Next
        requires started { thread < length self.now }
        requires inside { AreInside (laid code.now placed.now) self.now }
        ensures { (w : World) (past : List Mark) → w.laid ≡ laid code.now placed.now →
            AreThreadsOf w past self.now →
            IsNextTold w.laid (args_at self.now thread) result (comes w past thread) }
    {
        next_of(&self.threads[thread as usize], code, placed)
    }

    /// The arguments of the call, frame or return that the code of the thread wants next, in order.
    pub fn args(&self, thread: u8) -> &[u64]
        requires { thread < length self.now }
        ensures { result.now ≡ args_at self.now thread }
    {
        self.threads[thread as usize].args()
    }

    /// What the thread's first function has returned; `None` before that.
    pub fn result(&self, code: &FusedCode, placed: &Placed, thread: u8) -> Option<u64>
        requires started { thread < length self.now }
        requires inside { AreInside (laid code.now placed.now) self.now }
        ensures { (w : World) (past : List Mark) → w.laid ≡ laid code.now placed.now →
            AreThreadsOf w past self.now → result ≡ result_of w past thread }
    {
        match self.want(code, placed, thread) {
            Next::Ended { result } => Some(result),
            Next::Wants { .. } => None,
        }
    }

    /// Whether the thread stands in replay mode, so that it has a Stop where the run ends.
    pub fn in_replay_mode(&self, code: &FusedCode, placed: &Placed, thread: u8) -> bool
        requires started { thread < length self.now }
        requires inside { AreInside (laid code.now placed.now) self.now }
        ensures { (w : World) (past : List Mark) → w.laid ≡ laid code.now placed.now →
            AreThreadsOf w past self.now → result ≡ stands_above w past thread }
    {
        match self.want(code, placed, thread) {
            Next::Wants {
                side: Side::Replay,
                want,
            } => is_above(want),
            Next::Wants {
                side: Side::System,
                ..
            } => false,
            Next::Ended { .. } => false,
        }
    }
}

// Whether code that wants this stands in replay mode where it stands above the cut.
fn is_above(want: Want) -> bool
    ensures { result ≡ stands_at want }
{
    match want {
        Want::Turn
        | Want::Load { .. }
        | Want::Store { .. }
        | Want::Enter { .. }
        | Want::Leave
        | Want::Alloc { .. }
        | Want::Free { .. }
        | Want::Call { .. }
        | Want::UpReturn { .. }
        | Want::Step { .. }
        | Want::Fault(_) => true,
        Want::Give { .. } | Want::Return { .. } | Want::CallBack { .. } => false,
    }
}

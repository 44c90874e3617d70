// What the code of a thread comes to where the thread rests.

ghost use Rattle.std.specs.Prelude.{◌≡◌, true, Some};
ghost use Rattle.c_code.specs.Machine.{Config, action, func_of};
ghost use Rattle.c_code.specs.MarkLists.{Split, step};
ghost use Rattle.c_code.specs.Valid.{IsValid};
ghost use Rattle.c_machine.specs.declared.wants.Want.TheVariants.{Call as ShownCall};
ghost use Rattle.c_machine.specs.Accesses.{Makes};
ghost use Rattle.c_machine.specs.Callers.{crosses_at};
ghost use Rattle.c_machine.specs.Moves.{IsInside, MayFeed, after_answer, after_call};
ghost use Rattle.c_machine.specs.Positions.{laid};
ghost use Rattle.c_machine.specs.Readers.{args_of, side_of};
ghost use Rattle.c_machine.specs.Wants.{shown, told};
ghost use Rattle.recorder_threads.specs.Wants.{IsNextTold};
ghost use Rattle.recorder_threads.specs.Telling.{RestsAt, body_frame as frame_is, entered_as, told_call as call_is, told_crossing as crossing_is, told_mark as mark_is};

use crate::wants::{Next, Want};
use c_code::{Placed, Side};
use c_code_fused::FusedCode;
use c_machine::{Accesses, Answer, Thread, Want as Shown};

// What it comes to.
pub(crate) fn next_of(thread: &Thread, code: &FusedCode, placed: &Placed) -> Next
    requires { IsInside (laid code.now placed.now) thread.now.config }
    ensures { (c : Config) → RestsAt (laid code.now placed.now) c thread.now →
        IsNextTold (laid code.now placed.now) (args_of thread.now.config) result
        (step Split (laid code.now placed.now) c) }
{
    next_where(thread, code, placed, thread.next(code, placed))
}

// The thread is told of its mark: what it comes to then. All marks go this way, so that the machine stands here alone.
#[inline(never)]
pub(crate) fn next_after(
    thread: &mut Thread,
    code: &FusedCode,
    placed: &Placed,
    answer: Answer,
) -> Next
    requires inside { IsInside (laid code.now placed.now) thread.old.config }
    requires may { MayFeed (laid code.now placed.now) thread.old.config (told answer) }
    ensures fed { thread.new ≡ after_answer (laid code.now placed.now) thread.old (told answer) }
    ensures inside { IsInside (laid code.now placed.now) thread.new.config }
    ensures next { (c : Config) → RestsAt (laid code.now placed.now) c thread.new →
        IsNextTold (laid code.now placed.now) (args_of thread.new.config) result
        (step Split (laid code.now placed.now) c) }
{
    let want = thread.feed_next(code, placed, answer);
    next_where(thread, code, placed, want)
}

// The event of the thread's call of this function was made: what it comes to below the cut.
#[inline(always)]
pub(crate) fn next_across(thread: &mut Thread, code: &FusedCode, placed: &Placed, func: u16) -> Next
    requires crosses { crosses_at (laid code.now placed.now) thread.old.config ≡ true }
    requires call { shown (laid code.now placed.now) (action (laid code.now placed.now) thread.old.config) ≡
        Some (ShownCall func) }
    ensures crossed { thread.new ≡ after_call thread.old }
    ensures next { (c : Config) → RestsAt (laid code.now placed.now) c thread.new →
        IsNextTold (laid code.now placed.now) (args_of thread.new.config) result
        (step Split (laid code.now placed.now) c) }
{
    check(code);
    thread.cross(code, placed);
    // Whether it was called through an address doesn't matter below the cut.
    told_crossing(Side::System, false, func, body_frame(code, func))
}

// The thread makes accesses and rounds, as far as `accesses` makes them: what it comes to then.
#[inline(always)]
pub(crate) fn next_after_accesses<A: Accesses>(
    thread: &mut Thread,
    code: &FusedCode,
    placed: &Placed,
    accesses: &mut A,
) -> Next
    requires inside { IsInside (laid code.now placed.now) thread.old.config }
    ensures made { Makes A.makes (laid code.now placed.now) (side_of thread.old.config) accesses.old
        thread.old accesses.new thread.new }
    ensures inside { IsInside (laid code.now placed.now) thread.new.config }
    ensures next { (c : Config) → RestsAt (laid code.now placed.now) c thread.new →
        IsNextTold (laid code.now placed.now) (args_of thread.new.config) result
        (step Split (laid code.now placed.now) c) }
{
    let want = thread.make_accesses(code, placed, accesses);
    next_where(thread, code, placed, want)
}

// What it comes to where it shows this.
#[inline(always)]
fn next_where(thread: &Thread, code: &FusedCode, placed: &Placed, want: Shown) -> Next
    requires inside { IsInside (laid code.now placed.now) thread.now.config }
    requires shown { shown (laid code.now placed.now) (action (laid code.now placed.now) thread.now.config)
        ≡ Some want }
    ensures { (c : Config) → RestsAt (laid code.now placed.now) c thread.now →
        IsNextTold (laid code.now placed.now) (args_of thread.now.config) result
        (step Split (laid code.now placed.now) c) }
{
    check(code);
    match want {
        Shown::Call { func } => call_of(thread, code, placed, func),
        want => told_mark(thread.side(), thread.indirect(), want),
    }
}

// The same at a call of this function.
#[inline(never)]
fn call_of(thread: &Thread, code: &FusedCode, placed: &Placed, func: u16) -> Next
    requires { shown (laid code.now placed.now) (action (laid code.now placed.now) thread.now.config) ≡
        Some (ShownCall func) }
    ensures { (c : Config) → RestsAt (laid code.now placed.now) c thread.now →
        IsNextTold (laid code.now placed.now) (args_of thread.now.config) result
        (step Split (laid code.now placed.now) c) }
{
    check(code);
    let frame = body_frame(code, func);
    if thread.crosses(code, placed) {
        told_crossing(thread.mode(), thread.indirect(), func, frame)
    } else {
        told_call(thread.side(), thread.indirect(), func, frame)
    }
}

// What is known of all code.
#[inline(always)]
fn check(code: &FusedCode)
    ensures { IsValid code.now }
{
    let _instrs = code.instrs();
}

// The bytes of the function's frame, where it has a body.
fn body_frame(code: &FusedCode, func: u16) -> Option<u64>
    ensures { result ≡ frame_is (func_of code.now func) }
{
    match code.func(func) {
        Some(info) => match info.entry {
            Some(_) => Some(info.frame),
            None => None,
        },
        None => None,
    }
}

// A mark that a thread shows, of code on this side; its function is called through an address or not.
#[inline(always)]
fn told_mark(side: Side, indirect: bool, want: Shown) -> Next
    ensures { result ≡ mark_is side indirect want }
{
    let want = match want {
        Shown::Ended { result } => return Next::Ended { result },
        Shown::Turn => Want::Turn,
        Shown::Load { addr, width } => Want::Load { addr, width },
        Shown::Store { addr, width, value } => Want::Store { addr, width, value },
        Shown::Enter { func, size } => Want::Enter {
            indirect,
            func,
            size,
        },
        Shown::Leave => Want::Leave,
        Shown::Ret { func, result } => Want::Return { func, result },
        Shown::Alloc { size } => Want::Alloc { size },
        Shown::Free { addr } => Want::Free { addr },
        Shown::Call { func } => Want::Call { indirect, func },
        Shown::UpRet { result } => Want::UpReturn { result },
        Shown::Fault(number) => Want::Fault(number),
    };
    Next::Wants { side, want }
}

// A call that crosses the cut: its event is made in replay mode; in system mode, after it, its function runs or gives its result.
fn told_crossing(mode: Side, indirect: bool, func: u16, frame: Option<u64>) -> Next
    ensures { result ≡ crossing_is mode indirect func frame }
{
    match mode {
        Side::Replay => Next::Wants {
            side: Side::Replay,
            want: Want::Call { indirect, func },
        },
        Side::System => match frame {
            Some(size) => Next::Wants {
                side: Side::System,
                want: Want::Enter {
                    indirect: false,
                    func,
                    size,
                },
            },
            None => Next::Wants {
                side: Side::Replay,
                want: Want::Give { func },
            },
        },
    }
}

// A call that keeps the mode, or that system code makes through an address.
fn told_call(side: Side, indirect: bool, func: u16, frame: Option<u64>) -> Next
    ensures { result ≡ call_is side indirect func frame }
{
    let want = match frame {
        None => Want::Step { indirect, func },
        Some(size) => entered(side, indirect, func, size),
    };
    Next::Wants { side, want }
}

// The same where the function has a body.
fn entered(side: Side, indirect: bool, func: u16, size: u64) -> Want
    ensures { result ≡ entered_as side indirect func size }
{
    if indirect {
        if let Side::System = side {
            return Want::CallBack { func, size };
        }
    }
    Want::Enter {
        indirect,
        func,
        size,
    }
}

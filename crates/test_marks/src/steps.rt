// What is done to a thread, one mark or call after another.
ghost use Rattle.std.specs.Prelude.{◌≡◌, ◌<◌, ◌^◌, true, IfOk, IfSome, IsTrue};
ghost use Rattle.marks.specs.declared.side.Side.TheVariants.{System};
ghost use Rattle.c_code.specs.Machine.{func_of, entry};
ghost use Rattle.c_code.specs.MarkLists.{has_entry, result_shape};
ghost use Rattle.c_code.specs.Values.{is_value};
ghost use Rattle.test_marks.specs.Images.{laid_in};
ghost use Rattle.c_machine.specs.Answers.{IsNeeded};
ghost use Rattle.c_machine.specs.Readers.{side_of, is_indirect};
ghost use Rattle.c_machine.specs.Moves.{IsInside, open_on};
ghost use Rattle.test_marks.specs.Sides.{is_told, side_told};

use crate::image::Image;
use crate::run::{Below, Run};
use crate::track::Track;
use c_code::{Shape, Side};
use c_machine::{Answer, Thread, Want, is_call_of};
use std::alloc::{AllocError, Global};

/// How many functions may be open on each side.
const DEPTH: u16 = 4;

/// A thread is not driven further.
const MOST_STEPS: u32 = 100;

/// Makes the marks of a thread in which the function of the run has begun.
pub fn drive(
    alloc: Global,
    image: &Image,
    track: &mut Track<'_>,
    run: &Run<'_>,
) -> Result<(), AllocError> {
    let func = image.number_of(run.func);
    let mut thread = begun(alloc, image, func, &run.args, run.side)?;
    for _ in 0..MOST_STEPS {
        if !step(&mut thread, image, track) {
            return Ok(());
        }
    }
    track.word("..");
    Ok(())
}

/// A new thread in which the function has begun on the side, if it may have the arguments; else it is in no
/// function.
fn begun(
    alloc: Global,
    image: &Image,
    func: u16,
    args: &[u64],
    side: Side,
) -> Result<Thread, AllocError>
    ensures { IfOk result (λ thread. IsInside (laid_in image.now) thread.config) }
{
    let mut thread = Thread::new(alloc, 0, DEPTH)?;
    if is_call_of(&image.code, func, args) {
        thread.begin(&image.code, &image.placed, func, args, side, false);
    }
    Ok(thread)
}

/// One mark or call; whether the thread goes on.
fn step(thread: &mut Thread, image: &Image, track: &mut Track<'_>) -> bool
    requires { IsInside (laid_in image.now) thread.old.config }
    ensures { IsInside (laid_in image.now) thread.new.config }
{
    match thread.next(&image.code, &image.placed) {
        Want::Call { func } => call(thread, image, track, func),
        _ => mark(thread, image, track),
    }
}

fn mark(thread: &mut Thread, image: &Image, track: &mut Track<'_>) -> bool
    requires { IsInside (laid_in image.now) thread.old.config }
    ensures { IsInside (laid_in image.now) thread.new.config }
{
    let want = thread.next(&image.code, &image.placed);
    let number = track.make(image, thread, want);
    match answer_to(want, number) {
        Some(answer) => {
            thread.feed(&image.code, &image.placed, answer);
            true
        }
        None => false,
    }
}

/// What is said where no answer is left for a call, or none that it may be given.
fn stuck(track: &mut Track<'_>) -> bool {
    track.word("stuck");
    false
}

/// A call of this function, which is next.
fn call(thread: &mut Thread, image: &Image, track: &mut Track<'_>, func: u16) -> bool
    requires { IsInside (laid_in image.now) thread.old.config }
    ensures { IsInside (laid_in image.now) thread.new.config }
{
    if thread.crosses(&image.code, &image.placed) {
        return cross(thread, image, track, func);
    }
    if !has_body(image, func) {
        return step_over(thread, image, track, func);
    }
    if may_go_up(thread) && track.goes_up() {
        return go_up(thread, image, track);
    }
    run(thread, image, track)
}

/// A call that crosses the cut.
fn cross(thread: &mut Thread, image: &Image, track: &mut Track<'_>, func: u16) -> bool
    requires { IsInside (laid_in image.now) thread.old.config }
    ensures { IsInside (laid_in image.now) thread.new.config }
{
    track.call(image, func, thread.args());
    match track.next_below() {
        Some(Below::Gives(value)) => ret(thread, image, track, func, value),
        Some(Below::Runs) => run(thread, image, track),
        Some(Below::CallsBack(name, number)) => call_back(thread, image, track, name, number),
        Some(Below::GoesUp) | None => stuck(track),
    }
}

/// The call that crossed the cut returns with the value.
fn ret(thread: &mut Thread, image: &Image, track: &mut Track<'_>, func: u16, value: u64) -> bool
    requires { IsInside (laid_in image.now) thread.old.config }
    ensures { IsInside (laid_in image.now) thread.new.config }
{
    if !give(thread, image, value) {
        return stuck(track);
    }
    track.ret(image, func, value);
    true
}

/// A function without a body is called by system code: one step.
fn step_over(thread: &mut Thread, image: &Image, track: &mut Track<'_>, func: u16) -> bool
    requires { IsInside (laid_in image.now) thread.old.config }
    ensures { IsInside (laid_in image.now) thread.new.config }
{
    let Some(Below::Gives(value)) = track.next_below() else {
        return stuck(track);
    };
    track.one_step(image, func, thread.args(), value);
    if give(thread, image, value) {
        true
    } else {
        stuck(track)
    }
}

/// The call is given the value, if it may be.
fn give(thread: &mut Thread, image: &Image, value: u64) -> bool
    requires { IsInside (laid_in image.now) thread.old.config }
    ensures { IsInside (laid_in image.now) thread.new.config }
{
    let Want::Call { func } = thread.next(&image.code, &image.placed) else {
        return false;
    };
    if is_given(thread, image, func) && gives(image, func, value) {
        thread.feed(&image.code, &image.placed, Answer::Value(value));
        return true;
    }
    false
}

/// The function of the call begins, if there is room for it.
fn run(thread: &mut Thread, image: &Image, track: &mut Track<'_>) -> bool
    requires { IsInside (laid_in image.now) thread.old.config }
    ensures { IsInside (laid_in image.now) thread.new.config }
{
    let Want::Call { func } = thread.next(&image.code, &image.placed) else {
        return false;
    };
    let Ok(args) = thread.args().to_vec(track.alloc()) else {
        return track.stop();
    };
    let side = side_below(thread, image);
    if is_call_of(&image.code, func, &args) && has_room(thread, side) {
        thread.begin(&image.code, &image.placed, func, &args, side, false);
        return true;
    }
    stopped(thread, track, side)
}

/// What is said where the function of a call can't begin.
fn stopped(thread: &Thread, track: &mut Track<'_>, side: Side) -> bool {
    if has_room(thread, side) {
        return stuck(track);
    }
    track.word("full");
    false
}

/// System code that calls through an address calls the function back.
fn go_up(thread: &mut Thread, image: &Image, track: &mut Track<'_>) -> bool
    requires { IsInside (laid_in image.now) thread.old.config }
    ensures { IsInside (laid_in image.now) thread.new.config }
{
    let Want::Call { func } = thread.next(&image.code, &image.placed) else {
        return false;
    };
    let Ok(args) = thread.args().to_vec(track.alloc()) else {
        return track.stop();
    };
    if may_go_up(thread) && is_call_of(&image.code, func, &args) && has_room(thread, Side::Replay) {
        thread.begin(&image.code, &image.placed, func, &args, Side::Replay, true);
        track.up(image, func, &args);
        return true;
    }
    stopped(thread, track, Side::Replay)
}

/// System code below the call calls back the function of this name.
fn call_back(
    thread: &mut Thread,
    image: &Image,
    track: &mut Track<'_>,
    name: &str,
    number: u64,
) -> bool
    requires { IsInside (laid_in image.now) thread.old.config }
    ensures { IsInside (laid_in image.now) thread.new.config }
{
    let func = image.number_of(name);
    track.up(image, func, &[number]);
    if begin_back(thread, image, func, number) {
        true
    } else {
        stuck(track)
    }
}

/// The function begins above the cut, below the call, if it may.
fn begin_back(thread: &mut Thread, image: &Image, func: u16, number: u64) -> bool
    requires { IsInside (laid_in image.now) thread.old.config }
    ensures { IsInside (laid_in image.now) thread.new.config }
{
    let Want::Call { func: _ } = thread.next(&image.code, &image.placed) else {
        return false;
    };
    let args = [number];
    if thread.crosses(&image.code, &image.placed)
        && is_call_of(&image.code, func, &args)
        && has_room(thread, Side::Replay)
    {
        thread.begin(&image.code, &image.placed, func, &args, Side::Replay, true);
        return true;
    }
    false
}

/// Whether system code calls through an address, so that it may call back.
fn may_go_up(thread: &Thread) -> bool
    ensures { IsTrue result → (side_of thread.now.config ≡ System) ×
        (is_indirect thread.now.config ≡ true) }
{
    match thread.side() {
        Side::System => thread.indirect(),
        Side::Replay => false,
    }
}

/// Whether one more function may begin on the side.
fn has_room(thread: &Thread, side: Side) -> bool
    ensures { IsTrue result → open_on side thread.now.config < thread.now.depth }
{
    thread.open(side) < thread.depth() as usize
}

/// On which side the function of the call that is next runs.
fn side_below(thread: &Thread, image: &Image) -> Side
    ensures { result ≡ side_told (laid_in image.now) thread.now.config }
{
    if thread.crosses(&image.code, &image.placed) {
        Side::System
    } else {
        thread.side()
    }
}

/// Whether the source says what the function does.
fn has_body(image: &Image, func: u16) -> bool
    ensures { result ≡ has_entry (entry (laid_in image.now) func) }
{
    match image.code.func(func) {
        Some(info) => info.entry.is_some(),
        None => false,
    }
}

/// Whether the call of this function, which is next, is given a value in place of marks.
fn is_given(thread: &Thread, image: &Image, func: u16) -> bool
    ensures { result ≡ is_told (laid_in image.now) thread.now.config func }
{
    thread.crosses(&image.code, &image.placed) || !has_body(image, func)
}

/// Whether the value is one of the type of the function's result.
fn gives(image: &Image, func: u16, value: u64) -> bool
    ensures { result ≡ is_value (result_shape (func_of image.now.code func)) value }
{
    match image.code.func(func) {
        Some(info) => info.result.has_value(value),
        None => Shape::Void.has_value(value),
    }
}

/// What the want needs, with the number as its value or address, as far as it fits; `None` for a call, a
/// fault and an end.
fn answer_to(want: Want, number: u64) -> Option<Answer>
    ensures { IfSome result (λ answer. IsNeeded want answer) }
{
    match want {
        Want::Load { addr: _, width } => {
            if fits(number, width) {
                Some(Answer::Value(number))
            } else {
                None
            }
        }
        Want::Enter { func: _, size: _ } => Some(Answer::Frame(number)),
        Want::Alloc { size: _ } => Some(Answer::Value(number)),
        Want::Turn => Some(Answer::Go),
        Want::Store {
            addr: _,
            width: _,
            value: _,
        } => Some(Answer::Go),
        Want::Leave => Some(Answer::Go),
        Want::Ret { func: _, result: _ } => Some(Answer::Go),
        Want::Free { addr: _ } => Some(Answer::Go),
        Want::UpRet { result: _ } => Some(Answer::Go),
        Want::Call { func: _ } => None,
        Want::Fault(_) => None,
        Want::Ended { result: _ } => None,
    }
}

/// Whether it is a number of so many bytes; no value has another width than these.
fn fits(number: u64, width: u8) -> bool
    ensures { IsTrue result → number < 256 ^ width }
{
    match width {
        1 => number < 0x100,
        2 => number < 0x1_0000,
        4 => number < 0x1_0000_0000,
        8 => true,
        _ => false,
    }
}

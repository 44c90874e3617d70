//! Telling the threads of one mark.

ghost use Rattle.std.specs.Prelude.{◌∷◌, OnOk};
ghost use Rattle.recorder_state.specs.Inputs.{world_of};
ghost use Rattle.recorder_threads.specs.Threads.{AreThreadsOf};
ghost use Rattle.reference_recorder_threads.specs.Telling.{IsMarkNext, IsValueNext};

use crate::report::{Report, is_given, report_of};
use crate::starts::start_in;
use recorder_state::Inputs;
use recorder_threads::Threads;
use reference_recorder_marks::Mark;
use std::alloc::{AllocError, Global};

/// Tells the threads of the mark that a run makes next. `AllocError` where there is no memory for one more.
pub fn tell(
    threads: &mut Threads,
    alloc: Global,
    inputs: Inputs<'_>,
    mark: &Mark,
) -> Result<(), AllocError>
    requires { IsMarkNext (world_of inputs) threads.old mark.now }
    ensures { (n : IsMarkNext (world_of inputs.entry) threads.old mark.now) →
        OnOk result (AreThreadsOf (world_of inputs.entry) (n.mark ∷ n.past) threads.new) }
{
    let next = threads.want(inputs.code, inputs.placed, mark.thread);
    let gives = is_given(next);
    match report_of(&mark.act, gives) {
        Report::Nothing => unreachable!("no step is a fault or a Stop"),
        Report::Go => {
            threads.go(inputs.code, inputs.placed, mark.thread);
            Ok(())
        }
        Report::Value(value) => give(threads, alloc, inputs, mark, value),
        Report::Frame(frame) => {
            let _next = threads.next_in_frame(inputs.code, inputs.placed, mark.thread, frame);
            Ok(())
        }
        Report::Crosses => {
            threads.cross(inputs.code, inputs.placed, mark.thread);
            Ok(())
        }
        Report::Up => {
            threads.call_back(inputs.code, inputs.placed, mark.thread);
            Ok(())
        }
    }
}

// The same of a mark that gives its thread this value, and may start one more.
fn give(
    threads: &mut Threads,
    alloc: Global,
    inputs: Inputs<'_>,
    mark: &Mark,
    value: u64,
) -> Result<(), AllocError>
    requires { IsValueNext (world_of inputs) threads.old mark.now value }
    ensures { (n : IsValueNext (world_of inputs.entry) threads.old mark.now value) →
        OnOk result (AreThreadsOf (world_of inputs.entry) (n.next.mark ∷ n.next.past) threads.new) }
{
    match start_in(mark) {
        Some(start) => threads.start(
            alloc,
            inputs.code,
            inputs.placed,
            mark.thread,
            start.address,
            start.argument,
        ),
        None => {
            threads.give(inputs.code, inputs.placed, mark.thread, value);
            Ok(())
        }
    }
}

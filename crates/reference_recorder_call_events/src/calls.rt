//! Calls of functions of the interface.

ghost use Rattle.std.specs.Prelude.{IfOk};
ghost use Rattle.recorder_state.specs.Inputs.{world_of};
ghost use Rattle.reference_recorder_marks.specs.Marks.{kind_of};
ghost use Rattle.reference_recorder_threads.specs.Telling.{IsPast};
ghost use Rattle.reference_recorder_rules.specs.Steps.{IsMadeAs};
ghost use Rattle.reference_recorder_call_events.specs.Memory.{memory_of};
ghost use Rattle.reference_recorder_call_events.specs.Calls.{IsCallDone, IsCallNext, IsCallOf};

use crate::memory::{Memory, annotations};
use crate::pieces::{pieces, sizes};
use marks::Side;
use recorder_state::Inputs;
use reference_recorder_events::next_event;
use reference_recorder_laws::bytes_are_low;
use reference_recorder_marks::{EventKind, Mark, PieceList, PreparedList, RangeList, WordList};
use std::alloc::{AllocError, Global};
use stub_calls::Done;

/// The mark of a Call: code above the cut calls this function of the interface with these arguments, and hands down the bytes that it
/// reads and the ranges that it holds.
///
/// `AllocError` where there is no memory.
pub fn call(
    alloc: Global,
    inputs: Inputs<'_>,
    marks: &[Mark],
    thread: u8,
    func: u16,
    args: &[u64],
) -> Result<Mark, AllocError>
    requires { IsCallNext (world_of inputs) marks.now thread func args.now }
    ensures { (c : IsCallNext (world_of inputs.entry) marks.now thread func args.now) →
        IfOk result (IsMadeAs (world_of inputs.entry) c.next.at.past.run c.next.at.step) }
{
    bytes_are_low();
    let memory = Memory {
        inputs,
        marks,
        answer: &[],
    };
    call_mark(alloc, memory, thread, func, args)
}

// The same, whatever the code wants.
fn call_mark(
    alloc: Global,
    memory: Memory<'_>,
    thread: u8,
    func: u16,
    args: &[u64],
) -> Result<Mark, AllocError>
    requires { IsPast (world_of memory.inputs) memory.marks.now }
    ensures { IfOk result (IsCallOf memory.entry thread func args.now) }
{
    let mut done = Done::new(alloc);
    let annotations = annotations(memory.inputs);
    annotations.say(&mut done, Side::Replay, func, args, 0)?;
    let kind = call_kind(alloc, memory, func, args, &done)?;
    next_event(alloc, memory.inputs, memory.marks, thread, kind, &done)
}

// The Call in which this is done.
fn call_kind(
    alloc: Global,
    memory: Memory<'_>,
    func: u16,
    args: &[u64],
    done: &Done,
) -> Result<EventKind, AllocError>
    ensures { IfOk result (λ k. IsCallDone (memory_of memory.entry) func args.now done.now (kind_of k)) }
{
    let sizes = sizes(alloc, done.ins())?;
    let ins = pieces(alloc, memory, done.ins(), &sizes)?;
    let args = WordList::from_slice(alloc, args)?;
    let outs = Vec::from_slice(alloc, done.outs())?;
    let prepared = Vec::from_slice(alloc, done.prepares())?;
    Ok(EventKind::Call {
        func,
        args,
        ins: PieceList::from(ins),
        outs: RangeList::from(outs),
        prepared: PreparedList::from(prepared),
    })
}

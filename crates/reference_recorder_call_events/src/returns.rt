//! Returns of functions of the interface.

ghost use Rattle.std.specs.Prelude.{◌≡◌, length, IfOk};
ghost use Rattle.stub_meaning.specs.Meaning.{first_of};
ghost use Rattle.whole_runs.specs.World.{interface};
ghost use Rattle.recorder_state.specs.Inputs.{world_of};
ghost use Rattle.reference_recorder_marks.specs.Marks.{kind_of, past};
ghost use Rattle.reference_recorder_threads.specs.Telling.{IsPast};
ghost use Rattle.reference_recorder_given.specs.Given.{shown};
ghost use Rattle.reference_recorder_rules.specs.Steps.{IsMadeAs};
ghost use Rattle.reference_recorder_call_events.specs.Returns.{HasRegion, IsGiveNext, IsRetDone, IsRetOf, IsReturnNext};

use crate::memory::{Memory, annotations};
use crate::pieces::pieces;
use crate::returning::{committed, repeats};
use marks::{Range, Side};
use recorder_state::Inputs;
use reference_recorder_events::next_event;
use reference_recorder_given::Given;
use reference_recorder_laws::bytes_are_low;
use reference_recorder_marks::{EventKind, Mark, PieceList, WordList};
use reference_recorder_records::logged_pieces;
use reference_recorder_targets::{pieces_for, targets};
use std::alloc::{AllocError, Global};
use stub_calls::{Done, caching_is_of_the_function, keys_are_of_arguments};

// A call of the thread that has ended with a result.
#[derive(Clone, Copy)]
struct Ended<'a> {
    thread: u8,
    func: u16,
    args: &'a [u64],
    value: u64,
}

/// The mark of the Ret of a function of the interface whose body has ended with this result.
///
/// `AllocError` where there is no memory.
pub fn body_return(
    alloc: Global,
    inputs: Inputs<'_>,
    marks: &[Mark],
    thread: u8,
    func: u16,
    args: &[u64],
    value: u64,
) -> Result<Mark, AllocError>
    requires { IsReturnNext (world_of inputs) marks.now thread func args.now value }
    ensures { (r : IsReturnNext (world_of inputs.entry) marks.now thread func args.now value) →
        IfOk result (IsMadeAs (world_of inputs.entry) r.at.past.run r.at.step) }
{
    bytes_are_low();
    let memory = Memory {
        inputs,
        marks,
        answer: &[],
    };
    let ended = Ended {
        thread,
        func,
        args,
        value,
    };
    return_mark(alloc, memory, ended)
}

/// The mark of the Ret of a builtin or external, whose call is given this.
///
/// `AllocError` where there is no memory.
pub fn give_return(
    alloc: Global,
    inputs: Inputs<'_>,
    marks: &[Mark],
    thread: u8,
    func: u16,
    args: &[u64],
    given: Given<'_>,
) -> Result<Mark, AllocError>
    requires { IsGiveNext (world_of inputs) marks.now thread func args.now (shown given) }
    ensures { (g : IsGiveNext (world_of inputs.entry) marks.now thread func args.now (shown given.entry)) →
        IfOk result (IsMadeAs (world_of inputs.entry) g.next.at.past.run g.next.at.step) }
{
    bytes_are_low();
    let Given::Says { result, pieces } = given else {
        unreachable!("the call is given a result");
    };
    let targets = targets(
        alloc,
        annotations(inputs),
        marks,
        Side::Replay,
        func,
        args,
        result,
    )?;
    let answer = pieces_for(alloc, &targets, pieces)?;
    let memory = Memory {
        inputs,
        marks,
        answer: &answer,
    };
    let ended = Ended {
        thread,
        func,
        args,
        value: result,
    };
    return_mark(alloc, memory, ended)
}

// The mark of the Ret of a call that has ended.
fn return_mark(alloc: Global, memory: Memory<'_>, ended: Ended<'_>) -> Result<Mark, AllocError>
    requires past { IsPast (world_of memory.inputs) memory.marks.now }
    requires region { HasRegion (past memory.marks.now)
        ((interface (world_of memory.inputs)).commits ended.func ended.args.now ended.value) }
    ensures { IfOk result (IsRetOf memory.entry ended.entry.thread ended.entry.func ended.entry.args.now
        ended.entry.value) }
{
    keys_are_of_arguments();
    caching_is_of_the_function();
    let regions = regions(alloc, memory, ended)?;
    let mut done = Done::new(alloc);
    let annotations = annotations(memory.inputs);
    annotations.say(&mut done, Side::Replay, ended.func, ended.args, ended.value)?;
    let kind = return_kind(alloc, memory, ended, &regions, &done)?;
    next_event(
        alloc,
        memory.inputs,
        memory.marks,
        ended.thread,
        kind,
        &done,
    )
}

// The regions that the call holds.
fn regions(alloc: Global, memory: Memory<'_>, ended: Ended<'_>) -> Result<Vec<Range>, AllocError>
    ensures { IfOk result (λ rs. rs.items ≡
        (interface (world_of memory.entry.inputs)).outs ended.entry.func ended.entry.args.now) }
{
    let mut done = Done::new(alloc);
    let annotations = annotations(memory.inputs);
    annotations.say(&mut done, Side::Replay, ended.func, ended.args, 0)?;
    let regions = Vec::from_slice(alloc, done.outs())?;
    Ok(regions)
}

// The Ret that gives back these regions, and in which this is done.
fn return_kind(
    alloc: Global,
    memory: Memory<'_>,
    ended: Ended<'_>,
    regions: &[Range],
    done: &Done,
) -> Result<EventKind, AllocError>
    requires counted { length done.now.used ≡ length regions.now }
    requires region { HasRegion (past memory.marks.now) (first_of done.now.commits) }
    ensures { IfOk result (λ k.
        IsRetDone memory.entry ended.entry.thread ended.entry.func ended.entry.args.now
        ended.entry.value regions.now done.now (kind_of k)) }
{
    let outs = pieces(alloc, memory, regions, done.used())?;
    let outs = PieceList::from(outs);
    let commit = committed(alloc, memory, done.commit())?;
    let logged = logged_pieces(alloc, &outs, &commit)?;
    let repeats = repeats(
        alloc,
        memory.marks,
        ended.thread,
        ended.func,
        ended.value,
        &logged,
    )?;
    let args = WordList::from_slice(alloc, ended.args)?;
    Ok(EventKind::Ret {
        func: ended.func,
        args,
        result: ended.value,
        same: done.is_cached() && repeats,
        outs,
        commit,
    })
}

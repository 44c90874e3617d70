//! The fault that stops a call of the interface at one of its ranges.

ghost use Rattle.std.specs.Prelude.{◌≡◌, ◌<◌, ◌++◌, [], ℕ, Bool, true, length, get_or, take, IfOk};
ghost use Rattle.marks.specs.declared.side.Side.TheVariants.{Replay};
ghost use Rattle.marks.specs.Marks.{Act as Shown, Fault, Reading, Writing};
ghost use Rattle.marks.specs.Ranges.{prepared_ranges};
ghost use Rattle.whole_runs.specs.World.{World};
ghost use Rattle.recorder_threads.specs.declared.wants.Want.TheVariants as told;
ghost use Rattle.recorder_state.specs.Inputs.{world_of};
ghost use Rattle.reference_recorder_marks.specs.Marks.{act_of};
ghost use Rattle.reference_recorder_faults.specs.Faults.{IsAtFault, IsFaultAct};
ghost use Rattle.reference_recorder_faults.specs.Ranges.{IsStoppedIn, no_range};

use crate::bare::crossing;
use crate::ranges::{first_constant, first_dead_range};
use marks::{FaultKind, Range, Side};
use memory_map::Placed;
use recorder_state::Inputs;
use reference_recorder_marks::{Access, Act, Mark, RangeList};
use reference_recorder_targets::Annotations;
use std::alloc::{AllocError, Global};
use stub_calls::{Done, Prepared};

// What the fault does that stops a call at the first bad one of its ranges: it has touched those before.
pub(crate) fn stopped_call(
    alloc: Global,
    inputs: Inputs<'_>,
    marks: &[Mark],
    func: u16,
    args: &[u64],
    kind: FaultKind,
) -> Result<Act, AllocError>
    requires { (t : ℕ) × (indirect : Bool) ×
        IsAtFault (world_of inputs) marks.now t Replay args.now (told.Call indirect func) kind }
    ensures { (t : ℕ) (indirect : Bool) →
        (f : IsAtFault (world_of inputs.entry) marks.now t Replay args.now (told.Call indirect func) kind) →
        IfOk result (IsFaultAct (world_of inputs.entry) f.at.past.run f.at.step kind) }
{
    let mut done = Done::new(alloc);
    stopped_as_said(alloc, inputs, marks, func, args, kind, &mut done)
}

// The same; what annotations say of the call is read into `done`.
fn stopped_as_said(
    alloc: Global,
    inputs: Inputs<'_>,
    marks: &[Mark],
    func: u16,
    args: &[u64],
    kind: FaultKind,
    done: &mut Done,
) -> Result<Act, AllocError>
    requires { (t : ℕ) × (indirect : Bool) ×
        IsAtFault (world_of inputs) marks.now t Replay args.now (told.Call indirect func) kind }
    ensures { (t : ℕ) (indirect : Bool) →
        (f : IsAtFault (world_of inputs.entry) marks.now t Replay args.now (told.Call indirect func) kind) →
        IfOk result (IsFaultAct (world_of inputs.entry) f.at.past.run f.at.step kind) }
{
    let annotations = Annotations {
        code: inputs.code,
        stubs: inputs.stubs,
    };
    annotations.say(done, Side::Replay, func, args, 0)?;
    let held = held_ranges(alloc, done.outs(), done.prepares())?;
    stopped_at(alloc, inputs.placed, marks, done.ins(), &held, kind)
}

// The ranges that a call holds, and those that it prepares.
fn held_ranges(
    alloc: Global,
    outs: &[Range],
    prepared: &[Prepared],
) -> Result<Vec<Range>, AllocError>
    ensures { IfOk result (λ held. held.items ≡ outs.now ++ prepared_ranges prepared.now) }
{
    let mut held = Vec::from_slice(alloc, outs)?;
    for one in prepared {
        held.push(range_of(one))?;
    }
    Ok(held)
}

fn range_of(prepared: &Prepared) -> Range
    ensures { result ≡ prepared.now.range }
{
    prepared.range
}

// What the fault does that stops a call which reads and holds these ranges.
fn stopped_at(
    alloc: Global,
    placed: &Placed,
    marks: &[Mark],
    ins: &[Range],
    held: &[Range],
    kind: FaultKind,
) -> Result<Act, AllocError>
    requires { (w : World) × (act : Shown) × IsStoppedIn w placed.now marks.now ins.now held.now kind act }
    ensures { (w : World) (act : Shown) → IsStoppedIn w placed.now marks.now ins.now held.now kind act →
        IfOk result (λ made. act ≡ act_of made) }
{
    match kind {
        FaultKind::NotLive => match first_dead_range(placed, marks, ins) {
            Some(place) => at_read(alloc, kind, ins, place),
            None => match first_dead_range(placed, marks, held) {
                Some(place) => at_write(alloc, kind, ins, held, place),
                None => unreachable!("a byte of one of the ranges doesn't live"),
            },
        },
        FaultKind::ReadOnly => match first_constant(held) {
            Some(place) => at_write(alloc, kind, ins, held, place),
            None => unreachable!("one of the ranges has a constant"),
        },
        FaultKind::Divide | FaultKind::Shift | FaultKind::StackFull | FaultKind::BadCall => {
            unreachable!("a call is stopped at bytes alone")
        }
    }
}

// At the range at this place of those that are read.
fn at_read(alloc: Global, kind: FaultKind, ins: &[Range], place: usize) -> Result<Act, AllocError>
    requires { place < length ins.now }
    ensures { IfOk result (λ act. act_of act ≡
        Fault kind true (take place ins.now) [] (Reading (get_or ins.now place no_range))) }
{
    let before = Vec::from_slice(alloc, &ins[..place])?;
    Ok(crossing(
        kind,
        RangeList::from(before),
        RangeList::new(alloc),
        Access::Reading(ins[place]),
    ))
}

// At the range at this place of those that are held.
fn at_write(
    alloc: Global,
    kind: FaultKind,
    ins: &[Range],
    held: &[Range],
    place: usize,
) -> Result<Act, AllocError>
    requires { place < length held.now }
    ensures { IfOk result (λ act. act_of act ≡
        Fault kind true ins.now (take place held.now) (Writing (get_or held.now place no_range))) }
{
    let read = Vec::from_slice(alloc, ins)?;
    let before = Vec::from_slice(alloc, &held[..place])?;
    Ok(crossing(
        kind,
        RangeList::from(read),
        RangeList::from(before),
        Access::Writing(held[place]),
    ))
}

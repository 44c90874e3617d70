//! On which sides of the cut functions may run, as flags by number.

ghost use Rattle.std.specs.Prelude.{◌≡◌, ◌+◌, ◌<◌, ◌≤◌, ◌^◌, List, ℕ, IfOk, length, map};
ghost use Rattle.std.specs.List.{position_or_len, range_with_len};
ghost use Rattle.annot_reader_rules.specs.Notes.{Annotated};
ghost use Rattle.c_builtins.specs.Table.{first_source_function};
ghost use Rattle.c_types_rules.specs.Sources.{Program};
ghost use Rattle.cut_graph_modes.specs.Runs.{may};
ghost use Rattle.cut_graph_rules.specs.Sources.{mentions_of};
ghost use Rattle.isolation_check.specs.Flags.{HasAllFlags};
ghost use Rattle.cut_check.specs.Sources.{IsOf, cut_of, is_named_main};
ghost use Rattle.cut_check.specs.Flags.{AreFlags, in_interface};

use crate::begin::main_of;
use annot_reader::{Iface, interfaces_say_what_annotations_say};
use c_builtins::FIRST_SOURCE_FUNCTION;
use c_types_program::Function;
use cut_graph::{Modes, modes};
use cut_graph_mentions::Mentions;
use front_end::CheckedSource;
use marks::Side;
use std::alloc::{AllocError, Global};

/// Flags of functions by number, builtins too: those that may run above the cut, those that may run below it, and those of the
/// interface.
#[derive(Drop)]
pub(crate) struct Flags {
    pub(crate) above: Vec<bool>,
    pub(crate) below: Vec<bool>,
    pub(crate) faces: Vec<bool>,
}

fn may_run(modes: &Modes, side: Side, function: u16) -> bool
    ensures { result ≡ may modes.now side function }
{
    match side {
        Side::Replay => modes.replay(function),
        Side::System => modes.system(function),
    }
}

// Of the first functions by number, which may run on this side.
#[tactic(auto, using(crate::proofs::FlagLists::one_more))]
fn runs(alloc: Global, modes: &Modes, side: Side, count: u32) -> Result<Vec<bool>, AllocError>
    requires { count ≤ 2 ^ 16 }
    ensures { IfOk result (λ v. v.items ≡ map (may modes.now side) (range_with_len 0 count)) }
{
    let mut flags = Vec::new(alloc);
    for number in 0..count {
        flags.push(may_run(modes, side, number as u16))?;
    }
    Ok(flags)
}

// Of the first functions by number, which are in the interface.
#[tactic(auto, using(crate::proofs::FlagLists::one_more))]
fn faces(alloc: Global, iface: &Iface, count: u32) -> Result<Vec<bool>, AllocError>
    requires { count ≤ 2 ^ 16 }
    ensures { IfOk result (λ v. v.items ≡ map (in_interface iface.now) (range_with_len 0 count)) }
{
    let mut flags = Vec::new(alloc);
    for number in 0..count {
        flags.push(iface.annots(number as u16).is_some())?;
    }
    Ok(flags)
}

// How many functions there are, builtins and the numbers after them too.
fn count_of(functions: &[Function]) -> u32
    requires { length functions.now ≤ 1000 }
    ensures { result ≡ first_source_function + length functions.now }
{
    u32::from(FIRST_SOURCE_FUNCTION) + functions.len() as u32
}

/// The flags of a source that mentions this.
pub(crate) fn flags_of(
    alloc: Global,
    source: &CheckedSource,
    mentions: &Mentions,
) -> Result<Flags, AllocError>
    requires functions { length source.now.program.functions ≤ 1000 }
    requires mentioned { length mentions.now.functions ≡ length source.now.program.functions }
    requires globals { length mentions.now.globals ≤ 2 ^ 30 }
    requires main { position_or_len is_named_main source.now.program.functions <
        length source.now.program.functions }
    ensures each { IfOk result (λ s.
        HasAllFlags source.now.program s.above.items s.below.items s.faces.items) }
    ensures flags { (cut : List ℕ) (p : Program) (a : Annotated) → IsOf cut p a source.now →
        mentions.now ≡ mentions_of p →
        IfOk result (λ s. AreFlags source.now.program mentions.now s (cut_of cut p a)) }
{
    let functions = source.program.functions();
    let main = main_of(functions);
    let modes = modes(alloc, mentions, &source.interface, main)?;
    let count = count_of(functions);
    interfaces_say_what_annotations_say();
    let above = runs(alloc, &modes, Side::Replay, count)?;
    let below = runs(alloc, &modes, Side::System, count)?;
    let faces = faces(alloc, &source.interface, count)?;
    Ok(Flags {
        above,
        below,
        faces,
    })
}

//! Globals that both sides share.

ghost use Rattle.std.specs.Prelude.{◌+◌, ◌<◌, ◌≤◌, ◌^◌, length, OnOk};
ghost use Rattle.c_builtins.specs.Table.{first_source_function};
ghost use Rattle.isolation_check_findings.specs.Found.{Adds, IsBelow, IsSharedAt, SharedBy};

use crate::finding::{Finding, shared_finding};
use crate::names::{function_name, global_name};
use c_types_program::TypedProgram;
use cut_graph_mentions::Mentions;
use isolation_check_rows::{Counts, Entry, MentionKind, Sides, first};
use std::alloc::{AllocError, Global};

// What the functions in three entries of a global say of it.
fn add<'a>(
    alloc: Global,
    found: &mut Vec<Finding<'a>>,
    program: &'a TypedProgram,
    place: usize,
    above: Entry,
    below: Entry,
    written: Entry,
) -> Result<(), AllocError>
    requires { place < length program.now.globals }
    ensures { OnOk result (Adds (SharedBy program.now place above below written)
        found.old.items found.new.items) }
{
    let Some(above) = above else {
        return Ok(());
    };
    let Some(below) = below else {
        return Ok(());
    };
    if written.is_none() {
        return Ok(());
    }
    let name = global_name(program, place);
    let above = function_name(program, above);
    let below = function_name(program, below);
    found.push(shared_finding(alloc, name, above, below)?)?;
    Ok(())
}

/// Adds a finding for each global that both sides mention and one writes.
///
/// `AllocError` only where there is no memory.
pub(crate) fn shared<'a>(
    alloc: Global,
    found: &mut Vec<Finding<'a>>,
    program: &'a TypedProgram,
    mentions: &Mentions,
    sides: Sides<'_>,
) -> Result<(), AllocError>
    requires { first_source_function + length mentions.now.functions ≤ 2 ^ 16 }
    ensures { OnOk result (Adds (IsBelow (length program.now.globals)
        (IsSharedAt program.now mentions.now.functions sides.entry.above.now sides.entry.below.now))
        found.old.items found.new.items) }
{
    let functions = mentions.functions();
    let count = program.globals().len();
    let above = first(
        alloc,
        functions,
        sides,
        Counts::Above,
        MentionKind::Global,
        count,
    )?;
    let below = first(
        alloc,
        functions,
        sides,
        Counts::Below,
        MentionKind::Global,
        count,
    )?;
    let written = first(
        alloc,
        functions,
        sides,
        Counts::Either,
        MentionKind::Written,
        count,
    )?;
    for place in 0..count {
        add(
            alloc,
            found,
            program,
            place,
            above[place],
            below[place],
            written[place],
        )?;
    }
    Ok(())
}

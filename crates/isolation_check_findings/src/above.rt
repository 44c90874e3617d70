//! Externals that are named above the cut.

ghost use Rattle.std.specs.Prelude.{◌≡◌, ◌+◌, ◌<◌, ◌≤◌, ◌^◌, length, is_some, OnOk};
ghost use Rattle.c_builtins.specs.Table.{first_source_function};
ghost use Rattle.isolation_check_rows.specs.Rows.{entry};
ghost use Rattle.isolation_check_findings.specs.Found.{AboveBy, Adds, IsAbove, IsAboveAt, IsAboveIn, IsBelow, is_outside};

use crate::finding::{Finding, above_finding};
use crate::named::named;
use crate::names::function_name;
use c_builtins::FIRST_SOURCE_FUNCTION;
use c_types_program::TypedProgram;
use cut_graph_mentions::Mentions;
use isolation_check_rows::{Counts, Entry, Sides, number};
use std::alloc::{AllocError, Global};

// Whether the function at a place is an external outside the interface.
fn is_outside(program: &TypedProgram, sides: Sides<'_>, place: usize) -> bool
    requires place { place < length program.now.functions }
    requires functions { first_source_function + length program.now.functions ≤ 2 ^ 16 }
    ensures { result ≡ is_outside program.now sides.entry.faces.now place }
{
    program.functions()[place].body.is_none() && !sides.is_face(number(place))
}

// Whether a function of the source has an entry.
fn is_named(row: &[Entry], place: usize) -> bool
    requires { first_source_function + place < length row.now }
    ensures { result ≡ is_some (entry row.now (first_source_function + place)) }
{
    row[usize::from(FIRST_SOURCE_FUNCTION) + place].is_some()
}

// What is said of the function at a place, where another names it, or doesn't.
#[tactic(auto, using(crate::proofs::Adding::not_above, crate::proofs::Adding::is_above))]
fn add<'a>(
    alloc: Global,
    found: &mut Vec<Finding<'a>>,
    program: &'a TypedProgram,
    sides: Sides<'_>,
    is_named: bool,
    caller: usize,
    external: usize,
) -> Result<(), AllocError>
    requires caller { first_source_function + caller < 2 ^ 16 }
    requires external { external < length program.now.functions }
    requires functions { first_source_function + length program.now.functions ≤ 2 ^ 16 }
    ensures { OnOk result (Adds (AboveBy program.now sides.entry.faces.now is_named caller external)
        found.old.items found.new.items) }
{
    if !(is_named && is_outside(program, sides, external)) {
        return Ok(());
    }
    let name = function_name(program, number(external));
    found.push(above_finding(alloc, name, function_name(program, number(caller)))?)?;
    Ok(())
}

// Adds a finding for each external that the function at a place names.
fn above_of<'a>(
    alloc: Global,
    found: &mut Vec<Finding<'a>>,
    program: &'a TypedProgram,
    mentions: &Mentions,
    sides: Sides<'_>,
    caller: usize,
) -> Result<(), AllocError>
    requires caller { caller < length mentions.now.functions }
    requires mentions { first_source_function + length mentions.now.functions ≤ 2 ^ 16 }
    requires functions { first_source_function + length program.now.functions ≤ 2 ^ 16 }
    ensures { OnOk result (Adds (IsBelow (length program.now.functions)
        (IsAboveAt program.now mentions.now sides.entry.faces.now caller))
        found.old.items found.new.items) }
{
    let count = program.functions().len();
    let row = named(alloc, mentions, caller, count)?;
    for external in 0..count {
        add(
            alloc,
            found,
            program,
            sides,
            is_named(&row, external),
            caller,
            external,
        )?;
    }
    Ok(())
}

// The same, where it may run above the cut.
#[tactic(auto, using(crate::proofs::Adding::where_it_runs, crate::proofs::Adding::where_it_does_not))]
fn above_if<'a>(
    alloc: Global,
    found: &mut Vec<Finding<'a>>,
    program: &'a TypedProgram,
    mentions: &Mentions,
    sides: Sides<'_>,
    caller: usize,
    runs: bool,
) -> Result<(), AllocError>
    requires caller { caller < length mentions.now.functions }
    requires mentions { first_source_function + length mentions.now.functions ≤ 2 ^ 16 }
    requires functions { first_source_function + length program.now.functions ≤ 2 ^ 16 }
    ensures { OnOk result (Adds (IsAboveIn program.now mentions.now runs sides.entry.faces.now
        (length program.now.functions) caller) found.old.items found.new.items) }
{
    if runs {
        return above_of(alloc, found, program, mentions, sides, caller);
    }
    Ok(())
}

/// Adds a finding for each external outside the interface and function that may run above the cut and names it.
///
/// `AllocError` only where there is no memory.
pub(crate) fn above<'a>(
    alloc: Global,
    found: &mut Vec<Finding<'a>>,
    program: &'a TypedProgram,
    mentions: &Mentions,
    sides: Sides<'_>,
) -> Result<(), AllocError>
    requires mentions { first_source_function + length mentions.now.functions ≤ 2 ^ 16 }
    requires functions { first_source_function + length program.now.functions ≤ 2 ^ 16 }
    ensures { OnOk result (Adds (IsBelow (length mentions.now.functions)
        (IsAbove program.now mentions.now sides.entry.above.now sides.entry.faces.now
        (length program.now.functions))) found.old.items found.new.items) }
{
    for caller in 0..mentions.functions().len() {
        let runs = sides.counts(Counts::Above, number(caller));
        above_if(alloc, found, program, mentions, sides, caller, runs)?;
    }
    Ok(())
}

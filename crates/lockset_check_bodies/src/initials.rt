//! The walk over the values of globals.

ghost use Rattle.std.specs.Prelude.{◌≡◌, ◌++◌, ◌∷◌, List, OnOk};
ghost use Rattle.c_types_rules.specs.Sources.{Global as SourceGlobal};
ghost use Rattle.c_types_program.specs.Declarations.{global_in, initial_in, initials_in, known_in};
ghost use Rattle.lockset_check_rules.specs.Sources.{globals_found, initial_found, initials_found, known_found};
ghost use Rattle.lockset_check_values.specs.Setting.{guarded};

use c_types_program::{Global, Initial, Known};
use lockset_check_values::{Walk, Walker};
use std::alloc::AllocError;

fn walk_known(walker: &Walker<'_, '_>, walk: &mut Walk, known: Known) -> Result<(), AllocError>
    ensures { OnOk result (walk.new.found ≡
        walk.old.found ++ known_found (guarded walker.now) (known_in known)) }
{
    match known {
        Known::Number(_) | Known::AddressOfText(_) | Known::AddressOfGlobal(_) => Ok(()),
        Known::AddressOfFunction { from, number } => walker.function_address(walk, from, number),
    }
}

#[cycle(initials)]
fn walk_initial(walker: &Walker<'_, '_>, walk: &mut Walk, value: &Initial) -> Result<(), AllocError>
    ensures { OnOk result (walk.new.found ≡ walk.old.found ++ initial_found (guarded walker.now)
        (initial_in value.now)) }
{
    match value {
        Initial::Scalar(known) => walk_known(walker, walk, *known),
        Initial::Bytes(_) => Ok(()),
        Initial::Listed(inner) => walk_initials(walker, walk, inner),
    }
}

// Values of elements or members, one after another.
#[cycle(initials)]
fn walk_initials(
    walker: &Walker<'_, '_>,
    walk: &mut Walk,
    values: &[Initial],
) -> Result<(), AllocError>
    ensures { OnOk result (walk.new.found ≡ walk.old.found ++ initials_found (guarded walker.now)
        (initials_in values.now)) }
{
    for i in 0..values.len() {
        walk_initial(walker, walk, &values[i])?;
    }
    Ok(())
}

// The value of a global, before those of others.
fn walk_global(walker: &Walker<'_, '_>, walk: &mut Walk, global: &Global) -> Result<(), AllocError>
    ensures { OnOk result ((rest : List SourceGlobal) →
        walk.new.found ++ globals_found (guarded walker.now) rest ≡ walk.old.found ++ globals_found
        (guarded walker.now) (global_in walker.now.program.table global.now ∷ rest)) }
{
    match &global.value {
        Some(value) => walk_initial(walker, walk, value),
        None => Ok(()),
    }
}

/// Over the values of all globals.
pub(crate) fn walk_globals(walker: &Walker<'_, '_>, walk: &mut Walk) -> Result<(), AllocError>
    ensures { OnOk result (walk.new.found ≡ walk.old.found ++ globals_found (guarded walker.now)
        (guarded walker.now).globals) }
{
    let globals = walker.program().globals();
    for i in 0..globals.len() {
        walk_global(walker, walk, &globals[i])?;
    }
    Ok(())
}

//! The walk over functions.

ghost use Rattle.std.specs.Prelude.{◌≡◌, ◌+◌, ◌++◌, ◌∷◌, List, OnOk, suc};
ghost use Rattle.c_builtins.specs.Table.{first_source_function};
ghost use Rattle.c_types_rules.specs.Sources.{Function as SourceFunction};
ghost use Rattle.c_types_program.specs.Declarations.{IsFunction, function_in};
ghost use Rattle.lockset_check_rules.specs.Sources.{functions_found};
ghost use Rattle.lockset_check_values.specs.Setting.{guarded};
ghost use Rattle.lockset_check_values.specs.Walks.{IsWalkOf};
ghost use Rattle.lockset_check_bodies.specs.Runs.{runs_by};

use crate::body::walk_body;
use c_types_program::Function;
use lockset_check_values::{Walk, Walker};
use std::alloc::AllocError;

// Whether the function at a place may run.
fn may_run(flags: &[bool], place: usize) -> bool
    ensures { result ≡ runs_by flags.now (first_source_function + place) }
{
    match flags.get(place) {
        Some(flag) => *flag,
        None => false,
    }
}

// A function at a place, before others.
fn walk_function(
    walker: &Walker<'_, '_>,
    walk: &mut Walk,
    flags: &[bool],
    place: usize,
    function: &Function,
) -> Result<(), AllocError>
    requires function { IsFunction walker.now.program.table function.now }
    requires walk { IsWalkOf walker.now.sayings walk.old }
    ensures found { OnOk result ((rest : List SourceFunction) →
        walk.new.found ++ functions_found (guarded walker.now) (runs_by flags.now)
        (suc (first_source_function + place)) rest ≡ walk.old.found ++ functions_found (guarded walker.now)
        (runs_by flags.now) (first_source_function + place)
        (function_in walker.now.program.table function.now ∷ rest)) }
    ensures walk { OnOk result (IsWalkOf walker.now.sayings walk.new) }
{
    if !may_run(flags, place) {
        return Ok(());
    }
    match &function.body {
        Some(body) => walk_body(walker, walk, place, body),
        None => Ok(()),
    }
}

/// Over all functions that may run.
pub(crate) fn walk_functions(
    walker: &Walker<'_, '_>,
    walk: &mut Walk,
    flags: &[bool],
) -> Result<(), AllocError>
    requires { IsWalkOf walker.now.sayings walk.old }
    ensures { OnOk result (walk.new.found ≡ walk.old.found ++ functions_found (guarded walker.now)
        (runs_by flags.now) first_source_function (guarded walker.now).functions) }
{
    let functions = walker.program().functions();
    for i in 0..functions.len() {
        walk_function(walker, walk, flags, i, &functions[i])?;
    }
    Ok(())
}

//! The walk over a whole source.

ghost use Rattle.std.specs.Prelude.{◌≡◌, IfOk, is_some};
ghost use Rattle.lockset_check_rules.specs.Order.{AreSorted};
ghost use Rattle.lockset_check_rules.specs.Sources.{is_any_guarded, source_found};
ghost use Rattle.lockset_check_values.specs.Setting.{guarded, setting};
ghost use Rattle.lockset_check_bodies.specs.Runs.{runs_by};

use crate::functions::walk_functions;
use crate::initials::walk_globals;
use c_types_program::TypedProgram;
use lockset_check_order::in_order;
use lockset_check_rules::LockFinding;
use lockset_check_values::{Guards, Walk, Walker};
use std::alloc::{AllocError, Global};

// Whether the global at a place is guarded.
fn is_guarded(walker: &Walker<'_, '_>, place: usize) -> bool
    ensures { result ≡ is_some ((guarded walker.now).guard place) }
{
    walker.guards().guard(place).is_some()
}

// Whether any global is guarded.
fn is_any_guarded(walker: &Walker<'_, '_>) -> bool
    ensures { result ≡ is_any_guarded (guarded walker.now) 0 (guarded walker.now).globals }
{
    let globals = walker.program().globals();
    for i in 0..globals.len() {
        if is_guarded(walker, i) {
            return true;
        }
    }
    false
}

// What is found in a source, in the order of evaluation.
fn walk_source(
    alloc: Global,
    walker: &Walker<'_, '_>,
    may_run: &[bool],
) -> Result<Vec<LockFinding>, AllocError>
    ensures { IfOk result (λ found. found.items ≡ source_found (guarded walker.now) (runs_by may_run.now)) }
{
    if !is_any_guarded(walker) {
        return Ok(Vec::new(alloc));
    }
    let mut walk = Walk::new(alloc, walker.guards())?;
    walk_functions(walker, &mut walk, may_run)?;
    walk_globals(walker, &mut walk)?;
    Ok(walk.into_found())
}

/// What breaks the discipline of the guards of a program, by offset and then by the text of its line, each once. The flags say which
/// functions may run, in the order of the source; those without one don't. `AllocError` only where there is no memory.
pub fn find_all(
    alloc: Global,
    program: &TypedProgram,
    guards: &Guards,
    may_run: &[bool],
) -> Result<Vec<LockFinding>, AllocError>
    ensures { IfOk result (λ found. AreSorted (source_found (guarded (setting program.now guards.now))
        (runs_by may_run.now)) found.items) }
{
    let walker = Walker::new(alloc, program, guards);
    in_order(walk_source(alloc, &walker, may_run)?)
}

//! The check.

ghost use Rattle.std.specs.Prelude.{◌≡◌, ◌≢◌, ◌+◌, ◌≤◌, ◌^◌, [], false, length, true};
ghost use Rattle.c_builtins.specs.Table.{first_source_function};
ghost use Rattle.lockset_check_rules.specs.Sources.{source_found};
ghost use Rattle.lockset_check_bodies.specs.Runs.{runs_by};
ghost use Rattle.lockset_check.specs.Answers.{Answers, AreGiven, guarded_by};

use crate::error::GuardError;
use crate::sayings::guards_by;
use annot_reader::Iface;
use c_types_program::TypedProgram;
use lockset_check_bodies::find_all;
use lockset_check_rules::LockFinding;
use std::alloc::Global;

// Whether nothing was found.
fn is_none(found: &[LockFinding]) -> bool
    ensures none { result ≡ true → found.now ≡ [] }
    ensures some { result ≡ false → found.now ≢ [] }
{
    match found {
        [] => true,
        [_, ..] => false,
    }
}

// What was found, if anything was.
fn refuse(found: Vec<LockFinding>) -> Result<(), GuardError>
    ensures { AreGiven found.items result }
{
    if is_none(&found) {
        return Ok(());
    }
    Err(GuardError::Findings(found))
}

/// Whether a program keeps the discipline of the guards that its annotations declare: each guarded global is touched only where its
/// mutex is held, and no pointer to it is made. The flags say which functions may run, above the cut or below it, in the order of
/// the source, so from number 16 on; those without one don't.
///
/// It takes time linear in the program and in the findings but for their order, for ends of ways and loops, which go over what
/// changed on them, and for starts of bodies and calls of functions whose callers hold mutexes, which go over these by words of 64.
pub fn guard(
    alloc: Global,
    program: &TypedProgram,
    iface: &Iface,
    may_run: &[bool],
) -> Result<(), GuardError>
    requires functions { first_source_function + length program.now.functions ≤ 2 ^ 16 }
    requires globals { length program.now.globals ≤ 2 ^ 32 }
    ensures { Answers (source_found (guarded_by program.now iface.now) (runs_by may_run.now)) result }
{
    let guards = guards_by(alloc, program, iface)?;
    let found = find_all(alloc, program, &guards, may_run)?;
    refuse(found)
}

//! What an interface says of mutexes.

ghost use Rattle.std.specs.Prelude.{◌≡◌, ◌+◌, ◌<◌, ◌≤◌, ◌^◌, length, map, IfOk};
ghost use Rattle.std.specs.List.{range_with_len};
ghost use Rattle.c_builtins.specs.Table.{first_source_function};
ghost use Rattle.annot_reader.specs.Interfaces.{guard_at, holds_at};
ghost use Rattle.lockset_check.specs.Answers.{sayings_of};

use annot_reader::Iface;
use c_builtins::FIRST_SOURCE_FUNCTION;
use c_syntax::SharedSeq;
use c_types_program::TypedProgram;
use lockset_check_values::Guards;
use std::alloc::{AllocError, Global};

// The mutexes that guard the first globals.
#[tactic(auto, using(crate::proofs::Ranges::one_more))]
fn guards_of(alloc: Global, iface: &Iface, count: usize) -> Result<Vec<Option<i64>>, AllocError>
    requires { count ≤ 2 ^ 32 }
    ensures { IfOk result (λ v. v.items ≡ map (guard_at iface.now) (range_with_len 0 count)) }
{
    let mut guards = Vec::with_capacity(alloc, count)?;
    for place in 0..count {
        guards.push(iface.guard(place as u32))?;
    }
    Ok(guards)
}

// What the callers of the first functions hold.
fn holds_of(alloc: Global, iface: &Iface, count: usize) -> Result<Vec<SharedSeq<i64>>, AllocError>
    requires { first_source_function + count ≤ 2 ^ 16 }
    ensures { IfOk result (λ v. v.items ≡
        map (λ place. holds_at iface.now (first_source_function + place)) (range_with_len 0 count)) }
{
    let mut holds = Vec::with_capacity(alloc, count)?;
    for place in 0..count {
        let one = iface.share_holds(FIRST_SOURCE_FUNCTION + place as u16)?;
        holds.push(one)?;
    }
    Ok(holds)
}

/// What it says of the globals and functions of a program.
pub(crate) fn guards_by(
    alloc: Global,
    program: &TypedProgram,
    iface: &Iface,
) -> Result<Guards, AllocError>
    requires functions { first_source_function + length program.now.functions ≤ 2 ^ 16 }
    requires globals { length program.now.globals ≤ 2 ^ 32 }
    ensures { IfOk result (λ g. g ≡ sayings_of program.now iface.now) }
{
    let guards = guards_of(alloc, iface, program.globals().len())?;
    let holds = holds_of(alloc, iface, program.functions().len())?;
    Ok(Guards::new(guards, holds))
}

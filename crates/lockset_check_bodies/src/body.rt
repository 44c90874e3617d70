//! The walk over bodies.

ghost use Rattle.std.specs.Prelude.{◌≡◌, ◌+◌, ◌++◌, OnOk};
ghost use Rattle.c_builtins.specs.Table.{first_source_function};
ghost use Rattle.c_types_program.specs.Declarations.{body_in};
ghost use Rattle.c_types_program.specs.Statements.{IsStatement};
ghost use Rattle.lockset_check_rules.specs.Sources.{body_found};
ghost use Rattle.lockset_check_values.specs.Setting.{guarded};
ghost use Rattle.lockset_check_values.specs.Walks.{IsWalkOf};

use crate::statements::walk_statement;
use crate::ways::check_start;
use c_types_program::Body;
use lockset_check_values::{Walk, Walker};
use std::alloc::AllocError;

/// Over the body of the function of this place. `AllocError` only where there is no memory.
pub(crate) fn walk_body(
    walker: &Walker<'_, '_>,
    walk: &mut Walk,
    place: usize,
    body: &Body,
) -> Result<(), AllocError>
    requires body { IsStatement walker.now.program.table body.now.statements }
    requires walk { IsWalkOf walker.now.sayings walk.old }
    ensures found { OnOk result (walk.new.found ≡ walk.old.found ++ body_found (guarded walker.now)
        (first_source_function + place) (body_in walker.now.program.table body.now)) }
    ensures walk { OnOk result (IsWalkOf walker.now.sayings walk.new) }
{
    walk.start(place)?;
    let goes = walk_statement(walker, walk, &body.statements, None)?;
    if !goes {
        return Ok(());
    }
    check_start(walk, body.from)
}

//! The places of a cut, whatever is found in it.

ghost use Rattle.std.specs.Prelude.{◌≡◌, ◌+◌, ◌≤◌, ◌^◌, length, IfOk};
ghost use Rattle.c_builtins.specs.Table.{first_source_function};
ghost use Rattle.cut_graph_rules.specs.Findings.{Cut};
ghost use Rattle.isolation_check_rules.specs.Places.{IsPlaced};
ghost use Rattle.isolation_check_findings.specs.Given.{IsCut};
ghost use Rattle.isolation_check_apart.specs.Apart.{AreApart};
ghost use Rattle.isolation_check.specs.Literals.{literals_in};
ghost use Rattle.isolation_check.specs.Objects.{CanBePlaced, HasParts};
ghost use Rattle.isolation_check.specs.Flags.{HasAllFlags};

use crate::areas::areas;
use crate::objects::{Objects, place_objects};
use c_types_program::TypedProgram;
use cut_graph_mentions::Mentions;
use isolation_check_apart::placed_objects_lie_apart;
use isolation_check_rows::Sides;
use memory_map::{Flags, Placed, Places};
use std::alloc::{AllocError, Global};

fn flags(alloc: Global, flags: &[bool]) -> Result<Flags, AllocError>
    ensures { IfOk result (λ f. f ≡ flags.now) }
{
    Ok(Flags::from(Vec::from_slice(alloc, flags)?))
}

// These objects, with the flags of functions.
fn with_flags(alloc: Global, objects: Objects, sides: Sides<'_>) -> Result<Placed, AllocError>
    ensures { IfOk result (HasParts objects.strings.items objects.globals.items sides.entry.above.now
        sides.entry.below.now sides.entry.faces.now) }
{
    let replay = flags(alloc, sides.above)?;
    let system = flags(alloc, sides.below)?;
    let faces = flags(alloc, sides.faces)?;
    let Objects { strings, globals } = objects;
    Ok(Placed {
        globals: Places::from(globals),
        strings: Places::from(strings),
        replay,
        system,
        faces,
    })
}

/// Where the strings and globals of a cut lie, each with its bytes before a run, and the flags of its functions. In time linear
/// in the program, what it mentions, and these bytes.
///
/// `sides` has a flag for each function. `AllocError` only where there is no memory.
pub fn places_of(
    alloc: Global,
    program: &TypedProgram,
    mentions: &Mentions,
    sides: Sides<'_>,
) -> Result<Placed, AllocError>
    requires fits { CanBePlaced program.now }
    requires mentions { first_source_function + length mentions.now.functions ≤ 2 ^ 16 }
    requires flags { HasAllFlags program.now sides.above.now sides.below.now sides.faces.now }
    ensures placed { (c : Cut) → IsCut program.now mentions.now sides.entry.above.now
        sides.entry.below.now sides.entry.faces.now c →
        IfOk result (IsPlaced c (literals_in program.now.texts)) }
    ensures apart { (c : Cut) → IsCut program.now mentions.now sides.entry.above.now
        sides.entry.below.now sides.entry.faces.now c → IfOk result AreApart }
{
    let areas = areas(alloc, mentions, sides, program.globals().len())?;
    let objects = place_objects(alloc, program, &areas)?;
    placed_objects_lie_apart();
    with_flags(alloc, objects, sides)
}

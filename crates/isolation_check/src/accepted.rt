//! The places of an accepted cut.

ghost use Rattle.std.specs.Prelude.{◌≡◌, ◌≢◌, ◌+◌, ◌≤◌, ◌^◌, [], false, length, map, true};
ghost use Rattle.c_builtins.specs.Table.{first_source_function};
ghost use Rattle.cut_graph_rules.specs.Findings.{Cut};
ghost use Rattle.isolation_check_findings.specs.Found.{finding_of};
ghost use Rattle.isolation_check_findings.specs.Given.{IsCut};
ghost use Rattle.isolation_check.specs.Answers.{Answers, AreGiven};
ghost use Rattle.isolation_check.specs.Flags.{HasAllFlags};
ghost use Rattle.isolation_check.specs.Literals.{literals_in};
ghost use Rattle.isolation_check.specs.Objects.{CanBePlaced};

use crate::error::PlaceError;
use crate::placing::places_of;
use c_types_program::TypedProgram;
use cut_graph_mentions::Mentions;
use isolation_check_findings::{Finding, findings};
use isolation_check_rows::Sides;
use memory_map::Placed;
use std::alloc::Global;

// Whether nothing was found.
fn is_none(found: &[Finding<'_>]) -> bool
    ensures none { result ≡ true → found.now ≡ [] }
    ensures some { result ≡ false → found.now ≢ [] }
{
    match found {
        [] => true,
        [_, ..] => false,
    }
}

// What was found, if anything was.
fn refuse(found: Vec<Finding<'_>>) -> Result<(), PlaceError<'_>>
    ensures { AreGiven (map finding_of found.entry.items) result }
{
    if is_none(&found) {
        return Ok(());
    }
    Err(PlaceError::Findings(found))
}

/// Where the strings and globals of an accepted cut lie, each with its bytes before a run, and the flags of its functions; or all
/// that is wrong with the cut. In time linear in the program, what it mentions, these bytes and the findings, but for the order of the
/// findings and for externals, which are looked at with each function.
///
/// `sides` has a flag for each function. `Memory` only where there is none.
pub fn place<'a>(
    alloc: Global,
    program: &'a TypedProgram,
    mentions: &Mentions,
    sides: Sides<'_>,
) -> Result<Placed, PlaceError<'a>>
    requires fits { CanBePlaced program.now }
    requires mentions { first_source_function + length mentions.now.functions ≤ 2 ^ 16 }
    requires functions { first_source_function + length program.now.functions ≤ 2 ^ 16 }
    requires flags { HasAllFlags program.now sides.above.now sides.below.now sides.faces.now }
    ensures { (c : Cut) → IsCut program.now mentions.now sides.entry.above.now sides.entry.below.now
        sides.entry.faces.now c → Answers c (literals_in program.now.texts) result }
{
    refuse(findings(alloc, program, mentions, sides)?)?;
    Ok(places_of(alloc, program, mentions, sides)?)
}

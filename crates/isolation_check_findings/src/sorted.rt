//! All that is wrong with a cut.

ghost use Rattle.std.specs.Prelude.{◌+◌, ◌≤◌, ◌^◌, length, map, IfOk};
ghost use Rattle.std.specs.List.{All};
ghost use Rattle.c_builtins.specs.Table.{first_source_function};
ghost use Rattle.cut_graph_rules.specs.Findings.{AreFindings, Cut};
ghost use Rattle.isolation_check_findings.specs.Found.{HasLine, finding_of};
ghost use Rattle.isolation_check_findings.specs.Given.{IsCut};
ghost use Rattle.isolation_check_findings.specs.Sorted.{AreSorted};

use crate::above::above;
use crate::finding::Finding;
use crate::shared::shared;
use c_types_program::TypedProgram;
use cut_graph_mentions::Mentions;
use isolation_check_rows::Sides;
use std::alloc::{AllocError, Global};

// The findings in the order of their lines, each once.
fn sorted<'a>(found: Vec<Finding<'a>>) -> Vec<Finding<'a>>
    ensures { AreSorted found.entry.items result.items }
{
    let mut found = found;
    found.sort_unstable();
    found.dedup();
    found
}

/// All that is wrong with a cut, in the order of the bytes of its lines, each once.
///
/// `AllocError` only where there is no memory.
pub fn findings<'a>(
    alloc: Global,
    program: &'a TypedProgram,
    mentions: &Mentions,
    sides: Sides<'_>,
) -> Result<Vec<Finding<'a>>, AllocError>
    requires mentions { first_source_function + length mentions.now.functions ≤ 2 ^ 16 }
    requires functions { first_source_function + length program.now.functions ≤ 2 ^ 16 }
    ensures findings { (c : Cut) → IsCut program.now mentions.now sides.entry.above.now
        sides.entry.below.now sides.entry.faces.now c →
        IfOk result (λ v. AreFindings c (map finding_of v.items)) }
    ensures lines { IfOk result (λ v. All HasLine v.items) }
{
    let mut found = Vec::new(alloc);
    shared(alloc, &mut found, program, mentions, sides)?;
    above(alloc, &mut found, program, mentions, sides)?;
    Ok(sorted(found))
}

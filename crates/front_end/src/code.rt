//! The flat code of a source.

ghost use Rattle.std.specs.Prelude.{◌≡◌, ◌<◌, ◌^◌, None, IfErr, IfOk, OnOk, length};
ghost use Rattle.c_syntax.specs.Syntax.{Decls};
ghost use Rattle.c_types_rules.specs.Limits.{Typed, outcome};
ghost use Rattle.c_types_rules.specs.Sources.{Program};
ghost use Rattle.c_types_program.specs.Programs.{IsProgram};
ghost use Rattle.c_parser_nodes.specs.Counts.{capped, source_nodes};
ghost use Rattle.front_end.specs.Answers.{IsCode, IsTooLarge};
ghost use Rattle.front_end.specs.Sources.{too_large};

use crate::error::SourceError;
use c_code::Code;
use c_lower::lower;
use c_lower_laws::typed_programs_fit;
use c_types_program::TypedProgram;
use std::alloc::Global;

/// The flat code of a source that has so many nodes and is this by its types. `Limit` where it has too many nodes, or else too deep an
/// evaluation stack in one of its functions; `Memory` where there is no memory.
pub(crate) fn code_of(
    alloc: Global,
    nodes: usize,
    program: &TypedProgram,
) -> Result<Code, SourceError>
    requires typed { (ds : Decls) × (p : Program) × (nodes ≡ capped (source_nodes ds)) ×
        (outcome ds ≡ Typed p) ×
        IsProgram program.now p }
    requires texts { length program.now.texts < 2 ^ 32 }
    ensures small { (ds : Decls) (p : Program) → nodes ≡ capped (source_nodes ds) → outcome ds ≡ Typed p →
        IsProgram program.now p → OnOk result (too_large ds p ≡ None) }
    ensures code { IfOk result (IsCode program.now) }
    ensures refused { (ds : Decls) (p : Program) → nodes ≡ capped (source_nodes ds) → outcome ds ≡ Typed p →
        IsProgram program.now p → IfErr result (IsTooLarge ds p) }
{
    typed_programs_fit();
    Ok(lower(alloc, program, nodes)?)
}

//! The parts of a function's declarator.

ghost use Rattle.std.specs.Prelude.{◌≡◌};
ghost use Rattle.c_syntax.specs.Nodes.{Nodes};
ghost use Rattle.c_syntax.specs.Stands.{StandDecls, StandParts};
ghost use Rattle.c_syntax.specs.Syntax.{Parts};
ghost use Rattle.annot_reader_rules.specs.Functions.{own_parameters, result_parts};

use c_syntax::{DeclId, Part, PartKind};

/// The parts of a function's declarator but its own parameters, and the own parameters: those that stand nearest to the
/// name.
pub fn split_parts(parts: &[Part]) -> (&[Part], &[DeclId])
    ensures outer { (N : Nodes) (ps : Parts) → StandParts N parts.now ps →
        StandParts N result.0.now (result_parts ps) }
    ensures own { (N : Nodes) (ps : Parts) → StandParts N parts.now ps →
        StandDecls N result.1.now (own_parameters ps) }
{
    let Some((nearest, outer)) = parts.split_last() else {
        return (parts, &[]);
    };
    match &nearest.kind {
        PartKind::Params(own) => (outer, own.as_slice()),
        _ => (parts, &[]),
    }
}

//! Where parameters have no annotations (C11 has none; they are this language's).

ghost use Rattle.std.specs.Prelude.{◌≡◌};
ghost use Rattle.c_syntax.specs.Syntax.{Annots, Decls, Parts, Rest as After};
ghost use Rattle.c_syntax.specs.Stands.{StandAnnots, StandDecls, StandParts, StandsRest};
ghost use Rattle.annot_reader_rules.specs.Misplaced.{bare_annots as in_annots_of, bare_decls as in_decls_of, bare_parts as in_parts_of, bare_rest as in_rest_of};
ghost use Rattle.annot_reader_words.specs.Answers.{Passes};
ghost use Rattle.annot_reader_words.specs.Places.{AreAnnots, AreDecls, AreParts, IsRest};

use crate::collect::{decls, in_annots, in_parts, in_rest};
use crate::error::AnnotationError;
use crate::walk::bare_nodes;
use c_syntax::{Annot, DeclId, Part, Rest, Tree};
use std::alloc::Global;

/// No parameter in the types that annotations name has annotations. `Rule` names the first that has.
pub fn bare_annots(alloc: Global, tree: &Tree, annots: &[Annot]) -> Result<(), AnnotationError>
    requires { AreAnnots tree.now annots.now }
    ensures { (an : Annots) → StandAnnots tree.now annots.now an → Passes (in_annots_of an) result }
{
    let mut nodes = Vec::new(alloc);
    in_annots(annots, &mut nodes)?;
    bare_nodes(alloc, tree, nodes.as_slice())
}

/// No parameter in the parts of a declarator has annotations. `Rule` names the first that has.
pub fn bare_parts(alloc: Global, tree: &Tree, parts: &[Part]) -> Result<(), AnnotationError>
    requires { AreParts tree.now parts.now }
    ensures { (ps : Parts) → StandParts tree.now parts.now ps → Passes (in_parts_of ps) result }
{
    let mut nodes = Vec::new(alloc);
    in_parts(parts, &mut nodes)?;
    bare_nodes(alloc, tree, nodes.as_slice())
}

/// No parameter in a value, a body or among members has annotations, and no member or local has. `Rule` names the first
/// that has.
pub fn bare_rest(alloc: Global, tree: &Tree, rest: &Rest) -> Result<(), AnnotationError>
    requires { IsRest tree.now rest.now }
    ensures { (r : After) → StandsRest tree.now rest.now r → Passes (in_rest_of r) result }
{
    let mut nodes = Vec::new(alloc);
    in_rest(rest, &mut nodes)?;
    bare_nodes(alloc, tree, nodes.as_slice())
}

/// None of the declarations has annotations, nor has a parameter in them. `Rule` names the first that has.
pub fn bare_decls(alloc: Global, tree: &Tree, ids: &[DeclId]) -> Result<(), AnnotationError>
    requires { AreDecls tree.now ids.now }
    ensures { (ds : Decls) → StandDecls tree.now ids.now ds → Passes (in_decls_of ds) result }
{
    let mut nodes = Vec::new(alloc);
    decls(ids, &mut nodes)?;
    bare_nodes(alloc, tree, nodes.as_slice())
}

//! Declarations of functions that were declared before.

ghost use Rattle.std.specs.Prelude.{◌≡◌};
ghost use Rattle.c_syntax.specs.Nodes.{Nodes};
ghost use Rattle.c_syntax.specs.Stands.{StandAnnots, StandDecls, StandsDecl};
ghost use Rattle.c_syntax.specs.Syntax.{Annots, Decl as Declared, Decls};
ghost use Rattle.annot_reader_rules.specs.Functions.{declared_later as declared_later_of, none_again as none_again_of, nothing_again as nothing_again_of};
ghost use Rattle.annot_reader_words.specs.Answers.{Passes};
ghost use Rattle.annot_reader_words.specs.Places.{AreDecls, AreParts, IsRest};
ghost use Rattle.annot_reader_words.specs.Shown.{IsDecl};
ghost use Rattle.annot_reader_words.specs.Steps.{again as again_of};

use crate::around::bare_after;
use crate::declaration::decl_node;
use crate::error::AnnotationError;
use crate::parts::split_parts;
use crate::places::{bare_parts, bare_rest};
use c_syntax::{Annot, DeclId, Tree};
use std::alloc::Global;

// Nothing is said again.
fn nothing_again(annots: &[Annot]) -> Result<(), AnnotationError>
    ensures { (N : Nodes) (an : Annots) → StandAnnots N annots.now an →
        Passes (nothing_again_of an) result }
{
    match annots {
        [] => Ok(()),
        [first, ..] => Err(AnnotationError::Rule(first.from, 2)),
    }
}

// Nothing is said of a parameter again.
fn again(alloc: Global, tree: &Tree, id: DeclId) -> Result<(), AnnotationError>
    requires { IsDecl tree.now id }
    ensures { (d : Declared) → StandsDecl tree.now id d → Passes (again_of d) result }
{
    let decl = decl_node(tree, id);
    nothing_again(decl.annots.as_slice())?;
    bare_after(alloc, tree, decl)
}

// Nothing is said of several parameters again.
fn none_again(alloc: Global, tree: &Tree, ids: &[DeclId]) -> Result<(), AnnotationError>
    requires { AreDecls tree.now ids.now }
    ensures { (ds : Decls) → StandDecls tree.now ids.now ds → Passes (none_again_of ds) result }
{
    for id in ids {
        again(alloc, tree, *id)?;
    }
    Ok(())
}

/// A declaration of a function that was declared before has no annotations, nor have its parameters. `Rule` names the first
/// that has.
pub fn declared_later(alloc: Global, tree: &Tree, id: DeclId) -> Result<(), AnnotationError>
    requires { IsDecl tree.now id }
    ensures { (d : Declared) → StandsDecl tree.now id d → Passes (declared_later_of d) result }
{
    let decl = decl_node(tree, id);
    let (outer, own) = split_parts(decl.parts.as_slice());
    nothing_again(decl.annots.as_slice())?;
    none_again(alloc, tree, own)?;
    bare_parts(alloc, tree, outer)?;
    bare_rest(alloc, tree, &decl.rest)
}

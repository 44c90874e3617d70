//! What stands round the annotations of a declaration.

ghost use Rattle.std.specs.Prelude.{◌≡◌};
ghost use Rattle.c_syntax.specs.Syntax.{Decl as Declared};
ghost use Rattle.annot_reader_words.specs.Answers.{Passes};
ghost use Rattle.annot_reader_words.specs.Shown.{IsShown, Shows};
ghost use Rattle.annot_reader_words.specs.Steps.{bare_around as bare_around_of, bare_after as bare_after_of};

use crate::error::AnnotationError;
use crate::places::{bare_annots, bare_parts, bare_rest};
use c_syntax::{Decl, Tree};
use std::alloc::Global;

/// No parameter in the declarator, or in what follows it, has annotations.
pub fn bare_after(alloc: Global, tree: &Tree, decl: &Decl) -> Result<(), AnnotationError>
    requires { IsShown tree.now decl.now }
    ensures { (d : Declared) → Shows tree.now decl.now d → Passes (bare_after_of d) result }
{
    bare_parts(alloc, tree, decl.parts.as_slice())?;
    bare_rest(alloc, tree, &decl.rest)
}

/// The same, and no parameter in the types that its annotations name has any.
pub fn bare_around(alloc: Global, tree: &Tree, decl: &Decl) -> Result<(), AnnotationError>
    requires { IsShown tree.now decl.now }
    ensures { (d : Declared) → Shows tree.now decl.now d → Passes (bare_around_of d) result }
{
    bare_annots(alloc, tree, decl.annots.as_slice())?;
    bare_after(alloc, tree, decl)
}

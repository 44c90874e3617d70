//! Annotations of globals.

ghost use Rattle.std.specs.Prelude.{◌≡◌, None};
ghost use Rattle.c_syntax.specs.Nodes.{Nodes};
ghost use Rattle.c_syntax.specs.Stands.{StandAnnots, StandsAnnot, StandsDecl};
ghost use Rattle.c_syntax.specs.Syntax.{Annot as Annotated, Annots, Decl};
ghost use Rattle.annot_reader_rules.specs.Functions.{global_notes as global_notes_of, guards as guards_of};
ghost use Rattle.annot_reader_words.specs.Answers.{Tells};
ghost use Rattle.annot_reader_words.specs.Shown.{IsDecl};
ghost use Rattle.annot_reader_words.specs.Readings.{IsMutex, IsSame};
ghost use Rattle.annot_reader_words.specs.Steps.{guard_step};

use crate::around::bare_around;
use crate::declaration::decl_node;
use crate::error::AnnotationError;
use crate::items::one_item;
use crate::mutexes::mutex;
use crate::word::is_guarded_by;
use c_syntax::{Annot, DeclId, Tree};
use std::alloc::Global;

// The mutex that guards a global, where one annotation more says it.
fn guard_word(annot: &Annot, before: Option<u32>) -> Result<Option<u32>, AnnotationError>
    ensures { (N : Nodes) (x : Annotated) → StandsAnnot N annot.now x →
        Tells IsSame (guard_step x before) result }
{
    if !is_guarded_by(annot.name.as_slice()) {
        return Err(AnnotationError::Rule(annot.from, 1));
    }
    let Some(item) = one_item(annot.items.as_slice()) else {
        return Err(AnnotationError::Rule(annot.from, 1));
    };
    if before.is_some() {
        return Err(AnnotationError::Rule(annot.from, 2));
    }
    Ok(Some(mutex(item)?))
}

// The mutex that guards a global, if its annotations say one.
fn guard(annots: &[Annot]) -> Result<Option<u32>, AnnotationError>
    ensures { (N : Nodes) (an : Annots) → StandAnnots N annots.now an →
        Tells IsSame (guards_of an None) result }
{
    let mut guard = None;
    for annot in annots {
        guard = guard_word(annot, guard)?;
    }
    Ok(guard)
}

// A mutex as a value of int.
fn as_int(mutex: Option<u32>) -> Option<i64>
    ensures { IsMutex mutex result }
{
    Some(i64::from(mutex?))
}

/// The mutex that guards a global, if its declaration says one.
///
/// `Rule` names the first rule of annotations that the declaration breaks.
pub fn global_notes(alloc: Global, tree: &Tree, id: DeclId) -> Result<Option<i64>, AnnotationError>
    requires { IsDecl tree.now id }
    ensures { (d : Decl) → StandsDecl tree.now id d → Tells IsMutex (global_notes_of d) result }
{
    let decl = decl_node(tree, id);
    bare_around(alloc, tree, decl)?;
    Ok(as_int(guard(decl.annots.as_slice())?))
}

//! The annotations of a function, one after another.

ghost use Rattle.std.specs.Prelude.{◌≡◌, ◌≤◌, length};
ghost use Rattle.c_syntax.specs.Stands.{StandAnnots, StandsAnnot};
ghost use Rattle.c_syntax.specs.Syntax.{Annot as Annotated, Annots};
ghost use Rattle.annot_reader_rules.specs.Functions.{all_noted, noted, nothing};
ghost use Rattle.annot_reader_rules.specs.Notes.{Notes};
ghost use Rattle.annot_reader_rules.specs.Regions.{Signature as Known};
ghost use Rattle.annot_reader_words.specs.Answers.{Tells};
ghost use Rattle.annot_reader_functions.specs.Rules.{Stays};
ghost use Rattle.annot_reader_functions.specs.Sorts.{IsKnown};
ghost use Rattle.annot_reader_functions.specs.Parameters.{AreAnnots, AreItems};
ghost use Rattle.annot_reader_functions.specs.Sayings.{AreSaid, IsSaid, kind_in};
ghost use Rattle.annot_reader_functions.specs.Seen.{declared_by};

use crate::said::Said;
use crate::subject::Subject;
use crate::words::{cache_word, commit_word, cut_word, holds_word, sync_word};
use annot_reader_words::{AnnotationError, FunctionWord};
use c_syntax::{Annot, Tree};
use c_types_environment::Environment;
use std::alloc::Global;

/// One annotation more.
pub(crate) fn note(
    env: &mut Environment,
    tree: &Tree,
    subject: &Subject,
    annot: &Annot,
    said: &mut Said,
) -> Result<(), AnnotationError>
    requires few { length subject.now.signature.now.params.items ≤ 256 }
    requires items { AreItems tree.now annot.now.items }
    ensures agrees { (x : Annotated) (s : Known) (n : Notes) → StandsAnnot tree.now annot.now x →
        IsKnown subject.now.signature.now (declared_by env.old).env s →
        IsSaid subject.now.cut.now said.old n →
        Tells (λ m _. IsSaid subject.now.cut.now said.new m) (noted x s (kind_in subject.now.kind) n)
        result }
    ensures kept { Stays (declared_by env.old) (declared_by env.new) }
{
    match FunctionWord::of(annot.name.as_slice()) {
        Some(FunctionWord::Cut) => cut_word(annot, subject.kind, subject.cut, said),
        Some(FunctionWord::Sync) => sync_word(annot, subject.signature, said),
        Some(FunctionWord::Commit) => commit_word(env, tree, annot, subject.signature, said),
        Some(FunctionWord::Cache) => cache_word(annot, said),
        Some(FunctionWord::Holds) => holds_word(annot, subject.kind, said),
        None => Err(AnnotationError::Rule(annot.from, 1)),
    }
}

/// What the annotations of a function say. `Rule` names the first rule that they break, with the offset of the annotation or of an
/// item.
pub(crate) fn said_of(
    alloc: Global,
    env: &mut Environment,
    tree: &Tree,
    subject: &Subject,
    annots: &[Annot],
) -> Result<Said, AnnotationError>
    requires few { length subject.now.signature.now.params.items ≤ 256 }
    requires annots { AreAnnots tree.now annots.now }
    ensures agrees { (an : Annots) (s : Known) → StandAnnots tree.now annots.now an →
        IsKnown subject.now.signature.now (declared_by env.old).env s →
        Tells (AreSaid subject.now.cut.now) (all_noted an s (kind_in subject.now.kind) nothing) result }
    ensures kept { Stays (declared_by env.old) (declared_by env.new) }
{
    let mut said = Said::nothing(alloc);
    for annot in annots {
        note(env, tree, subject, annot, &mut said)?;
    }
    Ok(said)
}

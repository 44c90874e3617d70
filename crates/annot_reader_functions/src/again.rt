//! The annotations of a function that speak of its parameters.

ghost use Rattle.std.specs.Prelude.{◌≡◌, ◌<◌, ◌≤◌, length, slice_get, IfOk, OnOk};
ghost use Rattle.c_syntax.specs.Nodes.{Nodes};
ghost use Rattle.c_syntax.specs.Stands.{StandAnnots};
ghost use Rattle.c_syntax.specs.Syntax.{Annots};
ghost use Rattle.annot_reader_rules.specs.Functions.{all_noted, nothing};
ghost use Rattle.annot_reader_rules.specs.Regions.{Signature as Known};
ghost use Rattle.annot_reader_words.specs.Answers.{Tells};
ghost use Rattle.annot_reader_words.specs.Words.{function_word};
ghost use Rattle.annot_reader_functions.specs.Rules.{Stays};
ghost use Rattle.annot_reader_functions.specs.Sorts.{IsKnown};
ghost use Rattle.annot_reader_functions.specs.Known.{of_parameters, parameter_words, places_from, with_place};
ghost use Rattle.annot_reader_functions.specs.Parameters.{AreAnnots};
ghost use Rattle.annot_reader_functions.specs.Sayings.{AreSaid, kind_in};
ghost use Rattle.annot_reader_functions.specs.Seen.{declared_by};

use crate::list::note;
use crate::said::Said;
use crate::subject::Subject;
use annot_reader_words::{AnnotationError, FunctionWord};
use c_syntax::{Annot, Tree};
use c_types_environment::Environment;
use std::alloc::{AllocError, Global};

// Whether it speaks of parameters.
fn is_of_parameters(annot: &Annot) -> bool
    ensures { result ≡ of_parameters (function_word annot.now.name) }
{
    matches!(
        FunctionWord::of(annot.name.as_slice()),
        Some(FunctionWord::Sync | FunctionWord::Commit)
    )
}

// Puts the place of an annotation after the others, if it speaks of parameters.
fn add_place(places: &mut Vec<usize>, place: usize, annot: &Annot) -> Result<(), AllocError>
    ensures { OnOk result (places.new.items
        ≡ with_place (of_parameters (function_word annot.now.name)) place places.old.items) }
{
    if is_of_parameters(annot) {
        places.push(place)?;
    }
    Ok(())
}

/// The places of the annotations that speak of parameters, from 0. `AllocError` where there is no memory for it.
pub(crate) fn parameter_places(alloc: Global, annots: &[Annot]) -> Result<Vec<usize>, AllocError>
    ensures { (N : Nodes) (an : Annots) → StandAnnots N annots.now an →
        IfOk result (λ v. v.items ≡ places_from 0 an) }
{
    let mut places = Vec::new(alloc);
    for (place, annot) in annots.iter().enumerate() {
        add_place(&mut places, place, annot)?;
    }
    Ok(places)
}

// The annotation at a place.
fn annot_at(annots: &[Annot], place: usize) -> &Annot
    requires { place < length annots.now }
    ensures { slice_get annots.now place ≡ Some result.now }
{
    &annots[place]
}

/// What the annotations say that speak of parameters, which are those at these places. `Rule` names the first rule that they break, with
/// the offset of the annotation or of an item.
pub(crate) fn said_at(
    alloc: Global,
    env: &mut Environment,
    tree: &Tree,
    subject: &Subject,
    annots: &[Annot],
    places: &[usize],
) -> Result<Said, AnnotationError>
    requires few { length subject.now.signature.now.params.items ≤ 256 }
    requires annots { AreAnnots tree.now annots.now }
    requires places { (an : Annots) → StandAnnots tree.now annots.now an → places.now ≡ places_from 0 an }
    ensures agrees { (an : Annots) (s : Known) → StandAnnots tree.now annots.now an →
        IsKnown subject.now.signature.now (declared_by env.old).env s → Tells (AreSaid subject.now.cut.now)
        (all_noted (parameter_words an) s (kind_in subject.now.kind) nothing) result }
    ensures kept { Stays (declared_by env.old) (declared_by env.new) }
{
    let mut said = Said::nothing(alloc);
    for place in places {
        note(env, tree, subject, annot_at(annots, *place), &mut said)?;
    }
    Ok(said)
}

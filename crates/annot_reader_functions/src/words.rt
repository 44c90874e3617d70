//! One annotation of a function more. What was said so far counts no more after an error.

ghost use Rattle.std.specs.Prelude.{◌≡◌, ◌≤◌, List, ℕ, length};
ghost use Rattle.c_syntax.specs.Nodes.{Nodes};
ghost use Rattle.c_syntax.specs.Stands.{StandItems};
ghost use Rattle.c_syntax.specs.Syntax.{Items};
ghost use Rattle.c_types_model.specs.declared.extent.Extent.{Extent};
ghost use Rattle.annot_reader_rules.specs.Functions.{among, commit_word as commit_word_of, cut_word as cut_word_of, holds_word as holds_word_of, sync_word as sync_word_of};
ghost use Rattle.annot_reader_rules.specs.Notes.{Notes};
ghost use Rattle.annot_reader_rules.specs.Regions.{Signature as Known};
ghost use Rattle.annot_reader_words.specs.Answers.{Tells};
ghost use Rattle.annot_reader_functions.specs.Rules.{Stays};
ghost use Rattle.annot_reader_functions.specs.Sorts.{AreNamed, IsKnown};
ghost use Rattle.annot_reader_functions.specs.Parameters.{AreItems};
ghost use Rattle.annot_reader_functions.specs.Sayings.{AreSaid, IsSaid, kind_in};
ghost use Rattle.annot_reader_functions.specs.Steps.{cache_word as cache_word_of};
ghost use Rattle.annot_reader_functions.specs.Seen.{declared_by};

use crate::keys::key_parameter;
use crate::kind::FunctionKind;
use crate::once::alone;
use crate::said::Said;
use crate::signature::Signature;
use crate::sizes::size;
use annot_reader_words::{AnnotationError, mutex, names_cut, one_item};
use c_syntax::{Annot, Tree};
use c_types_environment::Environment;
use std::alloc::AllocError;

/// `cut`: the function is in the interface of the cuts that its items name.
pub(crate) fn cut_word(
    annot: &Annot,
    kind: FunctionKind,
    cut: &[u8],
    said: &mut Said,
) -> Result<(), AnnotationError>
    ensures { (N : Nodes) (is : Items) (n : Notes) → StandItems N annot.now.items is →
        IsSaid cut.now said.old n → Tells (λ m _. IsSaid cut.now said.new m)
        (cut_word_of annot.now.from is (kind_in kind) n) result }
{
    let items = annot.items.as_slice();
    if items.is_empty() {
        return Err(AnnotationError::Rule(annot.from, 1));
    }
    if said.has_cuts {
        return Err(AnnotationError::Rule(annot.from, 2));
    }
    if kind.is_main {
        return Err(AnnotationError::Rule(annot.from, 9));
    }
    said.in_cut = names_cut(items, annot.from, cut)?;
    said.has_cuts = true;
    Ok(())
}

// Whether a place is among those.
fn is_among(place: u8, places: &[u8]) -> bool
    ensures { result ≡ among place places.now }
{
    places.contains(&place)
}

/// `sync`: the value of a parameter is a key of the call and of its return.
pub(crate) fn sync_word(
    annot: &Annot,
    signature: &Signature,
    said: &mut Said,
) -> Result<(), AnnotationError>
    requires few { length signature.now.params.items ≤ 256 }
    ensures { (N : Nodes) (is : Items) (structs : List Extent) (s : Known) (cut : List ℕ) (n : Notes) →
        StandItems N annot.now.items is → AreNamed structs signature.now.params.items s.params →
        IsSaid cut said.old n → Tells (λ m _. IsSaid cut said.new m) (sync_word_of annot.now.from is s n)
        result }
{
    let Some(item) = one_item(annot.items.as_slice()) else {
        return Err(AnnotationError::Rule(annot.from, 1));
    };
    let place = key_parameter(signature, item)?;
    if is_among(place, said.sync.as_slice()) {
        return Err(AnnotationError::Rule(annot.from, 2));
    }
    said.sync.push(place).map_err(AllocError::from)?;
    Ok(())
}

/// `commit`: the call releases what was prepared under the value of a parameter.
pub(crate) fn commit_word(
    env: &mut Environment,
    tree: &Tree,
    annot: &Annot,
    signature: &Signature,
    said: &mut Said,
) -> Result<(), AnnotationError>
    requires few { length signature.now.params.items ≤ 256 }
    requires items { AreItems tree.now annot.now.items }
    ensures agrees { (is : Items) (s : Known) (cut : List ℕ) (n : Notes) →
        StandItems tree.now annot.now.items is → IsKnown signature.now (declared_by env.old).env s →
        IsSaid cut said.old n → Tells (λ m _. IsSaid cut said.new m) (commit_word_of annot.now.from is s n)
        result }
    ensures kept { Stays (declared_by env.old) (declared_by env.new) }
{
    let [key, used] = annot.items.as_slice() else {
        return Err(AnnotationError::Rule(annot.from, 1));
    };
    if said.commit.is_some() {
        return Err(AnnotationError::Rule(annot.from, 2));
    }
    let key = key_parameter(signature, key)?;
    let used = size(env, tree, signature, true, used)?;
    said.commit = Some((key, used));
    Ok(())
}

/// `cache`: equal results are written once.
pub(crate) fn cache_word(annot: &Annot, said: &mut Said) -> Result<(), AnnotationError>
    ensures { (N : Nodes) (is : Items) (cut : List ℕ) (n : Notes) → StandItems N annot.now.items is →
        IsSaid cut said.old n → Tells (λ m _. IsSaid cut said.new m) (cache_word_of annot.now.from is n)
        result }
{
    alone(annot, said.cache)?;
    said.cache = true;
    Ok(())
}

/// `holds`: callers hold a mutex.
#[tactic(auto, using(crate::proofs::Wording::among_is))]
pub(crate) fn holds_word(
    annot: &Annot,
    kind: FunctionKind,
    said: &mut Said,
) -> Result<(), AnnotationError>
    ensures { (N : Nodes) (is : Items) (cut : List ℕ) (n : Notes) → StandItems N annot.now.items is →
        IsSaid cut said.old n → Tells (λ m _. IsSaid cut said.new m)
        (holds_word_of annot.now.from is (kind_in kind) n) result }
{
    let Some(item) = one_item(annot.items.as_slice()) else {
        return Err(AnnotationError::Rule(annot.from, 1));
    };
    let mutex = mutex(item)?;
    if said.holds.contains(&mutex) {
        return Err(AnnotationError::Rule(annot.from, 2));
    }
    if kind.is_main {
        return Err(AnnotationError::Rule(annot.from, 9));
    }
    if !kind.has_body {
        return Err(AnnotationError::Rule(annot.from, 8));
    }
    said.holds.insert(mutex).map_err(AllocError::from)?;
    Ok(())
}

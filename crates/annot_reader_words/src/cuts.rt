//! The names of cuts.

ghost use Rattle.std.specs.Prelude.{◌≡◌};
ghost use Rattle.c_syntax.specs.Nodes.{Nodes};
ghost use Rattle.c_syntax.specs.Stands.{StandItems, StandsItem};
ghost use Rattle.c_syntax.specs.Syntax.{Item as Factors, Items};
ghost use Rattle.c_scopes.specs.Scopes.{same_name};
ghost use Rattle.annot_reader_rules.specs.Functions.{names_in};
ghost use Rattle.annot_reader_words.specs.Answers.{Tells};
ghost use Rattle.annot_reader_words.specs.Readings.{IsSame, NamesCut};
ghost use Rattle.annot_reader_words.specs.Steps.{name_in};

use crate::error::AnnotationError;
use c_lexer::Text;
use c_syntax::{Atom, Item};

// The name that an item of the annotation at `from` is.
fn name(item: &Item, from: u32) -> Result<&Text, AnnotationError>
    ensures { (N : Nodes) (x : Factors) → StandsItem N item.now x →
        Tells (λ n t. t.now ≡ n) (name_in from x) result }
{
    match (&item.a, &item.b) {
        (Atom::Name(name), None) => Ok(name),
        _ => Err(AnnotationError::Rule(from, 1)),
    }
}

// Whether the item is the name of the cut.
fn is_cut(item: &Item, from: u32, cut: &[u8]) -> Result<bool, AnnotationError>
    ensures { (N : Nodes) (x : Factors) → StandsItem N item.now x →
        Tells (λ n is. is ≡ same_name cut.now n) (name_in from x) result }
{
    let name = name(item, from)?;
    Ok(cut == name.as_slice())
}

/// Whether a cut is among the names in the items of the annotation at `from`. `Rule` where an item is no name.
pub fn names_cut(items: &[Item], from: u32, cut: &[u8]) -> Result<bool, AnnotationError>
    ensures { (N : Nodes) (is : Items) → StandItems N items.now is →
        Tells (NamesCut cut.now) (names_in from is) result }
{
    let mut found = false;
    for item in items {
        found = is_cut(item, from, cut)? || found;
    }
    Ok(found)
}

//! Words that stand once in a list.

ghost use Rattle.std.specs.Prelude.{◌≡◌, Option};
ghost use Rattle.std.specs.Option.{option_copied};
ghost use Rattle.c_syntax.specs.Nodes.{Nodes};
ghost use Rattle.c_syntax.specs.Stands.{StandItems, StandsItem};
ghost use Rattle.c_syntax.specs.Syntax.{Item as Factors, Items};
ghost use Rattle.annot_reader_rules.specs.Regions.{alone as alone_of, with_one as with_one_of};
ghost use Rattle.annot_reader_words.specs.Answers.{Passes, Tells};
ghost use Rattle.annot_reader_words.specs.Items.{MaybeStands};

use annot_reader_words::{AnnotationError, one_item};
use c_syntax::{Annot, Item};

/// The word of the annotation has no items, and didn't stand before.
pub fn alone(annot: &Annot, before: bool) -> Result<(), AnnotationError>
    ensures { (N : Nodes) (is : Items) → StandItems N annot.now.items is →
        Passes (alone_of annot.now.from is before) result }
{
    if !annot.items.as_slice().is_empty() {
        return Err(AnnotationError::Rule(annot.from, 1));
    }
    if before {
        return Err(AnnotationError::Rule(annot.from, 2));
    }
    Ok(())
}

/// The one item of the annotation, whose word didn't stand before.
pub fn with_one<'a>(annot: &'a Annot, before: Option<&Item>) -> Result<&'a Item, AnnotationError>
    ensures { (N : Nodes) (is : Items) (b : Option Factors) → StandItems N annot.now.items is →
        MaybeStands N (option_copied before.entry) b →
        Tells (λ x v. StandsItem N v.now x) (with_one_of annot.now.from is b) result }
{
    let Some(item) = one_item(annot.items.as_slice()) else {
        return Err(AnnotationError::Rule(annot.from, 1));
    };
    if before.is_some() {
        return Err(AnnotationError::Rule(annot.from, 2));
    }
    Ok(item)
}

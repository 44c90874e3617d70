//! Keys.

ghost use Rattle.std.specs.Prelude.{◌≡◌, ◌≤◌, List, length};
ghost use Rattle.c_types_model.specs.declared.extent.Extent.{Extent};
ghost use Rattle.c_syntax.specs.Nodes.{Nodes};
ghost use Rattle.c_syntax.specs.Stands.{StandsItem};
ghost use Rattle.c_syntax.specs.Syntax.{Item as Factors};
ghost use Rattle.annot_reader_rules.specs.Regions.{Signature as Known, key_parameter as key_parameter_of};
ghost use Rattle.annot_reader_words.specs.Answers.{Tells};
ghost use Rattle.annot_reader_words.specs.Readings.{IsSame};
ghost use Rattle.annot_reader_functions.specs.Sorts.{AreNamed};

use crate::signature::Signature;
use annot_reader_words::AnnotationError;
use c_syntax::{Atom, Item};

/// The place of the parameter that an item names, an integer or a pointer, whose value is a key.
pub fn key_parameter(signature: &Signature, item: &Item) -> Result<u8, AnnotationError>
    requires few { length signature.now.params.items ≤ 256 }
    ensures { (N : Nodes) (structs : List Extent) (x : Factors) (s : Known) → StandsItem N item.now x →
        AreNamed structs signature.now.params.items s.params → Tells IsSame (key_parameter_of s x) result }
{
    let (Atom::Name(name), None) = (&item.a, &item.b) else {
        return Err(AnnotationError::Rule(item.from, 7));
    };
    let Some((place, sort)) = signature.find(name.as_slice()) else {
        return Err(AnnotationError::Rule(item.from, 7));
    };
    if !sort.is_scalar() {
        return Err(AnnotationError::Rule(item.from, 7));
    }
    Ok(place)
}

//! Mutexes.

ghost use Rattle.std.specs.Prelude.{◌≡◌, ◌^◌, ◌<◌, IfOk};
ghost use Rattle.c_syntax.specs.Nodes.{Nodes};
ghost use Rattle.c_syntax.specs.Stands.{StandsItem};
ghost use Rattle.c_syntax.specs.Syntax.{Item as Factors};
ghost use Rattle.annot_reader_rules.specs.Functions.{mutex as mutex_of};
ghost use Rattle.annot_reader_words.specs.Answers.{Tells};
ghost use Rattle.annot_reader_words.specs.Readings.{IsSame};

use crate::error::AnnotationError;
use c_syntax::{Atom, Item};

/// The mutex that an item is: a number in the range of int.
pub fn mutex(item: &Item) -> Result<u32, AnnotationError>
    ensures agrees { (N : Nodes) (x : Factors) → StandsItem N item.now x →
        Tells IsSame (mutex_of x) result }
    ensures range { IfOk result (λ m. m < 2 ^ 31) }
{
    let (Atom::Number(number), None) = (&item.a, &item.b) else {
        return Err(AnnotationError::Rule(item.from, 8));
    };
    if *number >= 1 << 31 {
        return Err(AnnotationError::Rule(item.from, 8));
    }
    Ok(*number as u32)
}

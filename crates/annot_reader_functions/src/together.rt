//! Which annotations of a parameter stand together.

ghost use Rattle.std.specs.Prelude.{◌≡◌, Option};
ghost use Rattle.std.specs.Option.{option_copied};
ghost use Rattle.c_syntax.specs.Nodes.{Nodes};
ghost use Rattle.c_syntax.specs.Stands.{StandsAtom};
ghost use Rattle.c_syntax.specs.Syntax.{Atom as Factor, Item as Factors};
ghost use Rattle.annot_reader_rules.specs.Regions.{Marked, go_together as go_together_of, has_region as has_region_of, is_return as is_return_of, needs_result as needs_result_of};
ghost use Rattle.annot_reader_words.specs.Items.{MaybeStands};
ghost use Rattle.annot_reader_functions.specs.Marking.{IsMarked};

use crate::marks::Marks;
use c_syntax::{Atom, Item};

fn is_return(atom: &Atom) -> bool
    ensures { (N : Nodes) (a : Factor) → StandsAtom N atom.now a → result ≡ is_return_of a }
{
    matches!(atom, Atom::Return)
}

// The result of the function is a factor of the size.
fn needs_result(size: Option<&Item>) -> bool
    ensures { (N : Nodes) (o : Option Factors) → MaybeStands N (option_copied size.entry) o →
        result ≡ needs_result_of o }
{
    let Some(size) = size else {
        return false;
    };
    match &size.b {
        Some(second) => is_return(&size.a) || is_return(second),
        None => is_return(&size.a),
    }
}

/// Whether a region is read or written, at once or later.
pub fn has_region(marks: &Marks) -> bool
    ensures { (N : Nodes) (m : Marked) → IsMarked N marks.now m → result ≡ has_region_of m }
{
    marks.has_in || marks.has_out || marks.prepare.is_some()
}

/// Whether the annotations may stand together: `prepare` without `in` and `out`, `bsize` with one of these, `cap` with `out` or
/// `prepare`, and a `bsize` with the result beside a `cap`.
pub fn go_together(marks: &Marks) -> bool
    ensures { (N : Nodes) (m : Marked) → IsMarked N marks.now m → result ≡ go_together_of m }
{
    let at_once = marks.has_in || marks.has_out;
    (marks.prepare.is_none() || !at_once)
        && (marks.bsize.is_none() || at_once)
        && (marks.cap.is_none() || marks.has_out || marks.prepare.is_some())
        && (!needs_result(marks.bsize) || marks.cap.is_some())
}

//! What an annotation of a function may speak of.

ghost use Rattle.std.specs.Prelude.{◌≡◌, ◌≤◌, ℕ, List, Option, length};
ghost use Rattle.std.specs.Option.{option_copied};
ghost use Rattle.c_types_model.specs.Types.{CType};
ghost use Rattle.c_types_model.specs.declared.extent.Extent.{Extent};
ghost use Rattle.annot_reader_rules.specs.Regions.{is_called, place_from};

use crate::sort::Sort;
use c_lexer::Text;

/// A parameter: its name, if it has one, and of which sort its type is.
#[derive(Clone, Copy)]
pub struct Named<'a> {
    pub name: Option<&'a Text>,
    pub sort: Sort,
}

/// The parameters of a function, in order, and whether its result is an integer.
#[derive(Drop)]
pub struct Signature<'a> {
    pub params: Vec<Named<'a>>,
    pub gives_integer: bool,
}

// Whether a parameter has this name.
fn is_named(param: &Named, name: &[u8]) -> bool
    ensures { result ≡ is_called name.now (option_copied param.now.name) }
{
    match param.name {
        Some(other) => name == other.as_slice(),
        None => false,
    }
}

impl Signature<'_> {
    ghost use Rattle.annot_reader_functions.specs.Sorts.{AreNamed, IsPlaced};

    /// The place, from 0, and the sort of the first parameter of this name; `None` where none has it.
    pub fn find(&self, name: &[u8]) -> Option<(u8, Sort)>
        requires few { length self.now.params.items ≤ 256 }
        ensures { (structs : List Extent) (ps : List (Option (List ℕ) × CType)) →
            AreNamed structs self.now.params.items ps → IsPlaced structs result (place_from 0 name.now ps) }
    {
        for (place, param) in self.params.iter().enumerate() {
            if is_named(param, name) {
                return Some((place as u8, param.sort));
            }
        }
        None
    }
}

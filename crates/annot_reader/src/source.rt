//! What is read.

ghost use Rattle.std.specs.Prelude.{◌≡◌, slice_get};
ghost use Rattle.std.specs.Option.{option_copied};

use annot_reader_functions::{FunctionKind, Prototype};
use c_syntax::Tree;
use c_types_table::{TypeId, TypeIds};

/// A function of a source, as far as its annotations ask: its kind, and the numbers of the types of its result and of its parameters.
#[derive(Drop)]
pub struct Heading {
    pub kind: FunctionKind,
    pub result: TypeId,
    pub params: TypeIds,
}

impl Heading {
    /// The same, without taking memory.
    pub fn prototype(&self) -> Prototype<'_>
        ensures kind { result.kind ≡ self.now.kind }
        ensures result { result.result ≡ self.now.result }
        ensures params { result.params.now ≡ self.now.params }
    {
        Prototype {
            kind: self.kind,
            result: self.result,
            params: self.params.as_slice(),
        }
    }
}

/// A source whose types were checked, and the cut that is looked for.
#[derive(Clone, Copy)]
pub struct Source<'a> {
    pub tree: &'a Tree,
    /// Its functions by number, less that of the first.
    pub functions: &'a [Heading],
    pub cut: &'a [u8],
}

impl Source<'_> {
    /// The function at a place, from 0; `None` past the last.
    pub fn function(&self, place: usize) -> Option<&Heading>
        ensures { option_copied result ≡ slice_get self.now.functions.now place }
    {
        self.functions.get(place)
    }
}

//! Names and their numbers, in the order in which they were first seen.

ghost use Rattle.std.specs.Prelude.{◌≡◌, ◌⊎◌, ◌≤◌, ◌++◌, ◌∷◌, [], None, Some, IfOk, length};
ghost use Rattle.std.specs.Option.{option_and_then};
ghost use Rattle.c_scopes.specs.Bindings.{index_of, place_in, Continues};

use indexmap::IndexSet;
use std::alloc::AllocError;

/// The place of the binding that a name has in the innermost scope with one.
pub(crate) fn place_of(
    names: &IndexSet<Vec<u8>>,
    places: &[Option<usize>],
    name: &[u8],
) -> Option<usize>
    ensures { result ≡ option_and_then (place_in places.now) (index_of name.now names.now.keys) }
{
    let number = names.get_index_of(name)?;
    *places.get(number)?
}

/// The number of a name. One that wasn't seen before gets the next number, and no place.
pub(crate) fn number_of(
    names: &mut IndexSet<Vec<u8>>,
    places: &mut Vec<Option<usize>>,
    name: &[u8],
) -> Result<usize, AllocError>
    requires { length names.old.keys ≤ length places.old.items }
    ensures number { IfOk result (λ n. index_of name.now names.new.keys ≡ Some n) }
    ensures names { Continues names.old.keys names.new.keys }
    ensures places { (places.new.items ≡ places.old.items) ⊎
        (places.new.items ≡ places.old.items ++ None ∷ []) }
    ensures room { length names.new.keys ≤ length places.new.items }
{
    if let Some(number) = names.get_index_of(name) {
        return Ok(number);
    }
    if places.len() == names.len() {
        places.push(None)?;
    }
    let copy = Vec::from_slice(*places.allocator(), name)?;
    let (number, _) = names.insert_full(copy)?;
    Ok(number)
}

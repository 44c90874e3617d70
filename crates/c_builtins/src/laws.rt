//! What holds of all builtins.

ghost use Rattle.std.specs.Prelude.{◌≡◌, ◌<◌, slice_get, Some};
ghost use Rattle.c_builtins.specs.declared.builtin.Builtin.{Builtin};
ghost use Rattle.c_builtins.specs.Table.{IsReserved, first_source_function, name_of, number_of};

use crate::lookup::{BUILTINS, FIRST_SOURCE_FUNCTION};

/// A law: the list has each builtin at its number, their names are reserved and their numbers are below those of a
/// source's functions.
pub fn builtins_are_listed()
    ensures listed { (b : Builtin) → slice_get BUILTINS (number_of b) ≡ Some b }
    ensures reserved { (b : Builtin) → IsReserved (name_of b) }
    ensures below { (b : Builtin) → number_of b < first_source_function }
    ensures first { FIRST_SOURCE_FUNCTION ≡ first_source_function }
{}

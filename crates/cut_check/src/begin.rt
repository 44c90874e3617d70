//! Where a run begins.

ghost use Rattle.std.specs.Prelude.{◌≡◌, ◌+◌, ◌≤◌, length};
ghost use Rattle.std.specs.List.{position_or_len};
ghost use Rattle.c_builtins.specs.Table.{first_source_function};
ghost use Rattle.cut_check.specs.Sources.{is_named_main};

use c_builtins::FIRST_SOURCE_FUNCTION;
use c_types_program::Function;

fn is_main(function: &Function) -> bool
    ensures { result ≡ is_named_main function.now }
{
    function.name.as_slice() == b"main".as_slice()
}

// The place of the first function `main`, or how many functions there are.
fn place_of_main(functions: &[Function]) -> usize
    ensures { result ≡ position_or_len is_named_main functions.now }
{
    for (place, function) in functions.iter().enumerate() {
        if is_main(function) {
            return place;
        }
    }
    functions.len()
}

/// The number of the first function `main`.
pub(crate) fn main_of(functions: &[Function]) -> u16
    requires { length functions.now ≤ 1000 }
    ensures { result ≡ first_source_function + position_or_len is_named_main functions.now }
{
    FIRST_SOURCE_FUNCTION + place_of_main(functions) as u16
}

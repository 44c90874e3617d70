//! Names of a program.

ghost use Rattle.std.specs.Prelude.{◌≡◌, ◌<◌, length};
ghost use Rattle.isolation_check_findings.specs.Found.{function_name, global_name};

use c_builtins::FIRST_SOURCE_FUNCTION;
use c_types_program::TypedProgram;

/// The name of the function of a number; no bytes where there is none.
pub(crate) fn function_name<'a>(program: &'a TypedProgram, number: u16) -> &'a [u8]
    ensures { result.now ≡ function_name program.now number }
{
    match program
        .functions()
        .get(usize::from(number.saturating_sub(FIRST_SOURCE_FUNCTION)))
    {
        Some(function) => function.name.as_slice(),
        None => b"",
    }
}

/// The name of the global at a place.
pub(crate) fn global_name<'a>(program: &'a TypedProgram, place: usize) -> &'a [u8]
    requires { place < length program.now.globals }
    ensures { result.now ≡ global_name program.now place }
{
    program.globals()[place].name.as_slice()
}

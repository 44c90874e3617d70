//! What holds of typed programs.

ghost use Rattle.std.specs.Prelude.{◌≡◌};
ghost use Rattle.c_syntax.specs.Syntax.{Decls};
ghost use Rattle.c_types_rules.specs.Limits.{Typed, outcome};
ghost use Rattle.c_types_rules.specs.Sources.{Program};
ghost use Rattle.c_types_program.specs.Declarations.{Declared};
ghost use Rattle.c_types_program.specs.Programs.{IsProgram};
ghost use Rattle.c_lower_laws.specs.Fits.{IsFit};

/// A law: a program that keeps the rules of types and exceeds no limit is fit. Each call in it has one value per parameter (C11
/// 6.5.2.2, 2), converted to its type (7), each `return` converts its value (6.8.6.4, 3), the frame of each function begins with its
/// parameters and is no greater than a frame may be, a function has 8 parameters at most, the functions have numbers of 16 bits, and
/// the members of structs end where an object may.
pub fn typed_programs_fit()
    ensures { (ds : Decls) (p : Program) (d : Declared) → outcome ds ≡ Typed p → IsProgram d p → IsFit d }
{}

//! What holds of the depths of typed sources.

ghost use Rattle.std.specs.Prelude.{◌≡◌, ℕ, List, map};
ghost use Rattle.c_syntax.specs.Syntax.{Decls, Expr};
ghost use Rattle.c_types_rules.specs.TypedTree.{Typed as TypedExpression, value_of};
ghost use Rattle.c_types_rules.specs.Environment.{Environment};
ghost use Rattle.c_types_rules.specs.Expressions.{expression};
ghost use Rattle.c_types_rules.specs.Limits.{Typed, outcome};
ghost use Rattle.c_types_rules.specs.Sources.{Program};
ghost use Rattle.c_types_program.specs.Declarations.{Declared};
ghost use Rattle.c_types_program.specs.Programs.{IsProgram};
ghost use Rattle.c_lower_placement.specs.Heights.{value_depth};
ghost use Rattle.c_lower.specs.Depths.{first_wide, functions_in};
ghost use Rattle.c_lower_depth_laws.specs.Expressions.{expression_depth};
ghost use Rattle.c_lower_depth_laws.specs.Names.{AgreesIn};
ghost use Rattle.c_lower_depth_laws.specs.Functions.{first_wide_row, functions_of};
ghost use Rattle.c_lower_depth_laws.specs.Laws.{Gives, row_of};

/// A law: an expression that keeps the rules of types (C11 6.5) is as deep as its syntax says, where these are the names of objects.
pub fn expressions_are_counted()
    ensures { (x : Expr) (objects : List (List ℕ)) (env : Environment) (a : TypedExpression) →
        AgreesIn objects env → Gives (expression x env) a →
        value_depth (value_of a) ≡ expression_depth x objects }
{}

/// A law: the functions of a source that keeps the rules of types and their limits are those that its syntax has, in the order in
/// which they are first declared, and the body of each is as deep as its syntax says, 1 at least.
pub fn depths_are_counted()
    ensures { (ds : Decls) (p : Program) → outcome ds ≡ Typed p → map row_of p.functions ≡ functions_of ds }
{}

/// A law: the first function that is deeper than 64 values is the first that is by the source's syntax.
pub fn first_wide_is_counted()
    ensures { (ds : Decls) (p : Program) (d : Declared) → outcome ds ≡ Typed p → IsProgram d p →
        first_wide 0 (functions_in d) ≡ first_wide_row 0 (functions_of ds) }
{}

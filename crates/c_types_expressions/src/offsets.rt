//! Where expressions begin.

ghost use Rattle.std.specs.Prelude.{◌≡◌};
ghost use Rattle.c_syntax.specs.Stands.{Stands};
ghost use Rattle.c_syntax.specs.Syntax.{Expr};
ghost use Rattle.c_types_rules.specs.Expressions.{start_of};
ghost use Rattle.c_types_expressions.specs.Walks.{IsExpr};

use c_syntax::{ExprId, Tree};

/// The offset of an expression's first token.
pub fn start(tree: &Tree, id: ExprId) -> u32
    requires { IsExpr tree.now id }
    ensures { (x : Expr) → Stands tree.now id x → result ≡ start_of x }
{
    tree.expr(id).from
}

//! Strings as the values of arrays of `char` (C11 6.7.9, 14).

ghost use Rattle.std.specs.Prelude.{◌≡◌, ◌<◌, length};
ghost use Rattle.c_syntax.specs.Stands.{Stands};
ghost use Rattle.c_syntax.specs.Syntax.{Expr};
ghost use Rattle.c_types_model.specs.Types.{ArrayOf};
ghost use Rattle.c_types_table.specs.Tables.{type_at};
ghost use Rattle.c_types_rules.specs.Initials.{plain_initial as plain_by_rules, text_fits as text_fits_by_rules};
ghost use Rattle.c_types_operators.specs.Answers.{Agrees};
ghost use Rattle.c_types_expressions.specs.Walks.{IsExpr};
ghost use Rattle.c_types_initializers.specs.Values.{IsInitial};

use c_lexer::Text;
use c_syntax::{ExprId, ExprKind, Tree};
use c_types_environment::Environment;
use c_types_operators::TypeError;
use c_types_program::Initial;
use c_types_table::{Ty, TypeId};
use r2_num::IntKind;

// Whether a string with its ending zero fits into an array of such elements.
fn text_fits(env: &Environment, count: u64, element: TypeId, text: &Text) -> bool
    requires { element.0 < length env.now.table.types }
    ensures { result ≡ text_fits_by_rules count (type_at env.now.table.types element) text.now }
{
    match env.table().types().get(element) {
        Ty::Int(IntKind::I8) => (text.as_slice().len() as u64) < count,
        _ => false,
    }
}

/// The value of an array of `count` such elements that an expression gives, which must be a string that fits. `Rule` names the rule
/// that another breaks.
pub fn string_initial(
    env: &Environment,
    tree: &Tree,
    id: ExprId,
    count: u64,
    element: TypeId,
) -> Result<Initial, TypeError>
    requires id { IsExpr tree.now id }
    requires element { element.0 < length env.now.table.types }
    ensures { (x : Expr) → Stands tree.now id x →
        Agrees IsInitial (plain_by_rules env.now.env (ArrayOf count (type_at env.now.table.types element))
        x) result }
{
    let expr = tree.expr(id);
    match &expr.kind {
        ExprKind::Text(text) if text_fits(env, count, element, text) => {
            let bytes = Text::from_slice(env.alloc(), text.as_slice())?;
            Ok(Initial::Bytes(bytes))
        }
        _ => Err(TypeError::Rule(expr.from, 16)),
    }
}

//! Statements that hold no others (C11 6.8.3, 6.8.6).

ghost use Rattle.std.specs.Prelude.{◌≡◌, ◌<◌, length};
ghost use Rattle.c_syntax.specs.Stands.{StandsMaybe};
ghost use Rattle.c_syntax.specs.Syntax.{MaybeExpr};
ghost use Rattle.c_types_table.specs.Tables.{type_at};
ghost use Rattle.c_types_rules.specs.Statements.{returned as returned_by_rules};
ghost use Rattle.c_types_operators.specs.Answers.{Agrees};
ghost use Rattle.c_types_expressions.specs.Found.{Finds, Stays};
ghost use Rattle.c_types_statements.specs.Pieces.{evaluated_in, in_loops};
ghost use Rattle.c_types_statements.specs.Typed.{StatementStands};
ghost use Rattle.c_types_statements.specs.Walks.{IsMaybeExpr};

use crate::made;
use crate::place::Surroundings;
use crate::scalars::is_void;
use crate::values::{converted, maybe_value};
use c_syntax::{ExprId, Tree};
use c_types_environment::Environment;
use c_types_operators::TypeError;
use c_types_program::Statement;
use c_types_table::TypeId;

/// An expression whose value isn't used, or the empty statement. Errors are as for `statement`.
pub fn evaluated(
    env: &mut Environment,
    tree: &Tree,
    id: Option<ExprId>,
) -> Result<Statement, TypeError>
    requires { IsMaybeExpr tree.now id }
    ensures agrees { (x : MaybeExpr) → StandsMaybe tree.now id x →
        Finds env.old env.new (StatementStands env.new.table) (evaluated_in env.old.env x) result }
    ensures kept { Stays env.old env.new }
{
    let value = maybe_value(env, tree, id)?;
    Ok(made::evaluated(env.alloc(), value))
}

/// `break` or `continue` at this offset, which stand in loops. `Rule` where it doesn't.
pub fn in_loop_only(
    from: u32,
    place: Surroundings,
    statement: Statement,
) -> Result<Statement, TypeError>
    ensures { Agrees (λ s t. s ≡ t) (in_loops from place.in_loop statement) result }
{
    if place.in_loop {
        Ok(statement)
    } else {
        Err(TypeError::Rule(from, 11))
    }
}

/// A return at this offset, from a function that gives values of this type, or nothing. Errors are as for `statement`.
pub fn returned(
    env: &mut Environment,
    tree: &Tree,
    from: u32,
    ty: TypeId,
    id: Option<ExprId>,
) -> Result<Statement, TypeError>
    requires id { IsMaybeExpr tree.now id }
    requires ty { ty.0 < length env.old.table.types }
    ensures agrees { (x : MaybeExpr) → StandsMaybe tree.now id x →
        Finds env.old env.new (StatementStands env.new.table)
        (returned_by_rules env.old.env from (type_at env.old.table.types ty) x) result }
    ensures kept { Stays env.old env.new }
{
    match id {
        None if is_void(env, ty) => Ok(Statement::Return { from, value: None }),
        Some(id) if !is_void(env, ty) => {
            let value = converted(env, tree, ty, id)?;
            Ok(Statement::Return {
                from,
                value: Some(value),
            })
        }
        _ => Err(TypeError::Rule(from, 12)),
    }
}

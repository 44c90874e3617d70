//! The values of expressions, and conditions (C11 6.3.2.1, 6.8.4, 6.8.5).

ghost use Rattle.std.specs.Prelude.{◌≡◌, ◌<◌, length};
ghost use Rattle.c_syntax.specs.Stands.{Stands, StandsMaybe};
ghost use Rattle.c_syntax.specs.Syntax.{Expr, MaybeExpr};
ghost use Rattle.c_types_table.specs.Tables.{type_at};
ghost use Rattle.c_types_rules.specs.Statements.{condition_in, maybe_condition as maybe_condition_in, maybe_in, value_in};
ghost use Rattle.c_types_operators.specs.Answers.{IsAt};
ghost use Rattle.c_types_expressions.specs.Found.{Finds, Stays};
ghost use Rattle.c_types_expressions.specs.Walks.{IsExpr};
ghost use Rattle.c_types_statements.specs.Pieces.{converted_in};
ghost use Rattle.c_types_statements.specs.Typed.{MaybeStands};
ghost use Rattle.c_types_statements.specs.Walks.{IsMaybeExpr};

use crate::scalars::is_scalar;
use c_syntax::{ExprId, Tree};
use c_types_environment::Environment;
use c_types_expressions::{expression, start};
use c_types_nodes::NodeId;
use c_types_operators::TypeError;
use c_types_table::TypeId;

/// The value of an expression. `Rule` names the first rule that is broken in it, with the offset of the node that breaks it. Notes
/// where an object is too large.
pub fn value(env: &mut Environment, tree: &Tree, id: ExprId) -> Result<NodeId, TypeError>
    requires { IsExpr tree.now id }
    ensures agrees { (x : Expr) → Stands tree.now id x →
        Finds env.old env.new (IsAt env.new.table) (value_in env.old.env x) result }
    ensures kept { Stays env.old env.new }
{
    let node = expression(env, tree, id)?;
    Ok(env.value_of(node)?)
}

/// The value of an expression, converted as if by assignment to an object of a type (C11 6.5.16.1). Errors are as for `value`.
pub fn converted(
    env: &mut Environment,
    tree: &Tree,
    ty: TypeId,
    id: ExprId,
) -> Result<NodeId, TypeError>
    requires id { IsExpr tree.now id }
    requires ty { ty.0 < length env.old.table.types }
    ensures agrees { (x : Expr) → Stands tree.now id x →
        Finds env.old env.new (IsAt env.new.table)
        (converted_in env.old.env (type_at env.old.table.types ty) x) result }
    ensures kept { Stays env.old env.new }
{
    let value = value(env, tree, id)?;
    env.assigned(start(tree, id), ty, value)
}

/// What decides between two ways: an integer or a pointer. Errors are as for `value`.
pub fn condition(env: &mut Environment, tree: &Tree, id: ExprId) -> Result<NodeId, TypeError>
    requires { IsExpr tree.now id }
    ensures agrees { (x : Expr) → Stands tree.now id x →
        Finds env.old env.new (IsAt env.new.table) (condition_in env.old.env x) result }
    ensures kept { Stays env.old env.new }
{
    let value = value(env, tree, id)?;
    if is_scalar(env, env.type_of(value)) {
        Ok(value)
    } else {
        Err(TypeError::Rule(start(tree, id), 10))
    }
}

/// The value of an expression, where there is one. Errors are as for `value`.
pub fn maybe_value(
    env: &mut Environment,
    tree: &Tree,
    id: Option<ExprId>,
) -> Result<Option<NodeId>, TypeError>
    requires { IsMaybeExpr tree.now id }
    ensures agrees { (x : MaybeExpr) → StandsMaybe tree.now id x →
        Finds env.old env.new (MaybeStands env.new.table) (maybe_in env.old.env x) result }
    ensures kept { Stays env.old env.new }
{
    match id {
        None => Ok(None),
        Some(id) => {
            let value = value(env, tree, id)?;
            Ok(Some(value))
        }
    }
}

/// A condition, where there is one. Errors are as for `value`.
pub fn maybe_condition(
    env: &mut Environment,
    tree: &Tree,
    id: Option<ExprId>,
) -> Result<Option<NodeId>, TypeError>
    requires { IsMaybeExpr tree.now id }
    ensures agrees { (x : MaybeExpr) → StandsMaybe tree.now id x →
        Finds env.old env.new (MaybeStands env.new.table) (maybe_condition_in env.old.env x) result }
    ensures kept { Stays env.old env.new }
{
    match id {
        None => Ok(None),
        Some(id) => {
            let condition = condition(env, tree, id)?;
            Ok(Some(condition))
        }
    }
}

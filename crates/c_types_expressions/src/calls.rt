//! Calls (C11 6.5.2.2).

ghost use Rattle.std.specs.Prelude.{◌≡◌, ◌<◌, length};
ghost use Rattle.c_builtins.specs.Table.{params_of};
ghost use Rattle.c_syntax.specs.Stands.{StandExprs, Stands};
ghost use Rattle.c_syntax.specs.Syntax.{Call, Expr, Exprs};
ghost use Rattle.c_types_table.specs.Tables.{type_at};
ghost use Rattle.c_types_rules.specs.Expressions.{arguments as arguments_by_rules, builtin_in, expression as expression_by_rules};
ghost use Rattle.c_types_operators.specs.Answers.{IsAt, StandsAt};
ghost use Rattle.c_types_operators.specs.Calls.{IsCalled, types_after};
ghost use Rattle.c_types_expressions.specs.Found.{AreValues, Finds, Stays};
ghost use Rattle.c_types_expressions.specs.Pieces.{argument_of, call_target as call_target_by_rules};
ghost use Rattle.c_types_expressions.specs.Walks.{AreExprs, IsExpr};

use crate::expressions::expression;
use crate::made::converted;
use crate::offsets::start;
use c_builtins::Builtin;
use c_syntax::{ExprId, ExprKind, Tree};
use c_types_environment::{Environment, append};
use c_types_nodes::{Arguments, Node, NodeId};
use c_types_operators::{CallTarget, TypeError};
use c_types_table::TypeId;

/// A call; `from` is its offset.
#[cycle(walk)]
pub fn call(
    env: &mut Environment,
    tree: &Tree,
    from: u32,
    callee: ExprId,
    ids: &[ExprId],
) -> Result<NodeId, TypeError>
    requires callee { IsExpr tree.now callee }
    requires ids { AreExprs tree.now ids.now }
    ensures agrees { (x : Expr) (xs : Exprs) → Stands tree.now callee x → StandExprs tree.now ids.now xs →
        Finds env.old env.new (StandsAt env.new.table) (expression_by_rules (Call from x xs) env.old.env)
        result }
    ensures kept { Stays env.old env.new }
{
    let target = call_target(env, tree, from, callee)?;
    let arguments = arguments(env, tree, from, ids, target.function)?;
    Ok(env.add(Node::CallOf {
        callee: target.callee,
        arguments,
        result: target.result,
    })?)
}

// The builtin that an expression names; `None` of any other expression.
fn builtin_named(env: &Environment, tree: &Tree, id: ExprId) -> Option<Builtin>
    requires { IsExpr tree.now id }
    ensures { (x : Expr) → Stands tree.now id x → result ≡ builtin_in env.now.env x }
{
    match &tree.expr(id).kind {
        ExprKind::Name(name) => env.called_builtin(name.as_slice()),
        _ => None,
    }
}

// What is called, which may be a builtin by its name.
#[cycle(walk)]
fn call_target(
    env: &mut Environment,
    tree: &Tree,
    from: u32,
    id: ExprId,
) -> Result<CallTarget, TypeError>
    requires { IsExpr tree.now id }
    ensures agrees { (x : Expr) → Stands tree.now id x →
        Finds env.old env.new (IsCalled env.new.table) (call_target_by_rules x env.old.env from) result }
    ensures kept { Stays env.old env.new }
{
    match builtin_named(env, tree, id) {
        Some(builtin) => env.builtin_called(start(tree, id), builtin),
        None => {
            let callee = expression(env, tree, id)?;
            env.called(from, callee)
        }
    }
}

// The arguments of a call of a function of this type: as many as it has parameters, each converted as if by assignment.
#[cycle(walk)]
fn arguments(
    env: &mut Environment,
    tree: &Tree,
    from: u32,
    ids: &[ExprId],
    function: TypeId,
) -> Result<Arguments, TypeError>
    requires ids { AreExprs tree.now ids.now }
    requires function { function.0 < length env.old.table.types }
    ensures agrees { (xs : Exprs) → StandExprs tree.now ids.now xs →
        Finds env.old env.new (AreValues env.new.table)
        (arguments_by_rules xs env.old.env from (params_of (type_at env.old.table.types function))) result }
    ensures kept { Stays env.old env.new }
{
    let mut values = Vec::with_capacity(env.alloc(), ids.len())?;
    for (number, id) in ids.iter().enumerate() {
        let value = argument(env, tree, from, *id, function, number)?;
        append(&mut values, value)?;
    }
    match env.parameter(function, ids.len()) {
        Some(_) => Err(TypeError::Rule(from, 9)),
        None => Ok(Arguments::new(env.alloc(), values)?),
    }
}

// The argument of this number, from 0 on.
#[cycle(walk)]
fn argument(
    env: &mut Environment,
    tree: &Tree,
    from: u32,
    id: ExprId,
    function: TypeId,
    number: usize,
) -> Result<NodeId, TypeError>
    requires id { IsExpr tree.now id }
    requires function { function.0 < length env.old.table.types }
    ensures agrees { (x : Expr) → Stands tree.now id x →
        Finds env.old env.new (IsAt env.new.table)
        (argument_of x env.old.env from (types_after number
        (params_of (type_at env.old.table.types function)))) result }
    ensures kept { Stays env.old env.new }
{
    match env.parameter(function, number) {
        Some(ty) => {
            let operand = expression(env, tree, id)?;
            converted(env, start(tree, id), ty, operand)
        }
        None => Err(TypeError::Rule(from, 9)),
    }
}

//! Expressions (C11 6.5).

ghost use Rattle.c_syntax.specs.Stands.{Stands};
ghost use Rattle.c_syntax.specs.Syntax.{Expr};
ghost use Rattle.c_types_rules.specs.Expressions.{expression as expression_by_rules};
ghost use Rattle.c_types_operators.specs.Answers.{StandsAt};
ghost use Rattle.c_types_expressions.specs.Found.{AreBoth, Finds, Stays};
ghost use Rattle.c_types_expressions.specs.Pieces.{operands as operands_by_rules};
ghost use Rattle.c_types_expressions.specs.Walks.{IsExpr};

use crate::calls::call;
use crate::constants::{character, number, string};
use crate::declarators::declared_type;
use crate::made;
use crate::sizes::{size_of_operand, size_of_type};
use c_syntax::{ExprId, ExprKind, Tree};
use c_types_environment::Environment;
use c_types_nodes::NodeId;
use c_types_operators::TypeError;

/// What an expression is, as a node of the table: an object, a function or a value.
///
/// `Rule` names the first rule that is broken in it, with the offset of the node that breaks it. Notes where an array is too large,
/// and what stands unevaluated.
#[cycle(walk)]
pub fn expression(env: &mut Environment, tree: &Tree, id: ExprId) -> Result<NodeId, TypeError>
    // The number stands for an expression whose numbers are such as tokens are.
    requires { IsExpr tree.now id }
    // Where it stands for x, the answer is what the rules say of x.
    ensures agrees { (x : Expr) → Stands tree.now id x →
        Finds env.old env.new (StandsAt env.new.table) (expression_by_rules x env.old.env) result }
    // What is declared, and what numbers stand for, is as before, also after an error.
    ensures kept { Stays env.old env.new }
{
    let node = tree.expr(id);
    let from = node.from;
    match &node.kind {
        ExprKind::Name(name) => env.named(from, name.as_slice()),
        ExprKind::Number {
            value,
            suffix,
            decimal,
        } => number(env, *value, *suffix, *decimal),
        ExprKind::Char(value) => character(env, *value),
        ExprKind::Text(text) => string(env, from, text),
        ExprKind::Binary(sign, left, right) => {
            let (left, right) = operands(env, tree, *left, *right)?;
            made::binary(env, from, *sign, left, right)
        }
        ExprKind::Assign(sign, left, right) => {
            let (left, right) = operands(env, tree, *left, *right)?;
            made::assignment(env, from, *sign, left, right)
        }
        ExprKind::Cond(condition, left, right) => {
            let (condition, left) = operands(env, tree, *condition, *left)?;
            let right = expression(env, tree, *right)?;
            made::choice(env, from, condition, left, right)
        }
        ExprKind::Prefix(sign, operand) => {
            let operand = expression(env, tree, *operand)?;
            env.prefixed(from, *sign, operand)
        }
        ExprKind::Postfix(sign, operand) => {
            let operand = expression(env, tree, *operand)?;
            env.postfixed(from, *sign, operand)
        }
        ExprKind::SizeofExpr(operand) => {
            let operand = expression(env, tree, *operand)?;
            size_of_operand(env, from, operand)
        }
        ExprKind::SizeofType(name) => {
            let ty = declared_type(env, tree, *name)?;
            size_of_type(env, from, ty)
        }
        ExprKind::Cast(name, operand) => {
            let ty = declared_type(env, tree, *name)?;
            let operand = expression(env, tree, *operand)?;
            made::cast(env, from, ty, operand)
        }
        ExprKind::Index(left, right) => {
            let (left, right) = operands(env, tree, *left, *right)?;
            made::subscript(env, from, left, right)
        }
        ExprKind::Call(callee, arguments) => call(env, tree, from, *callee, arguments.as_slice()),
        ExprKind::Member(operand, name) => {
            let operand = expression(env, tree, *operand)?;
            env.member(from, operand, name.as_slice())
        }
        ExprKind::Arrow(operand, name) => {
            let operand = expression(env, tree, *operand)?;
            made::arrow(env, from, operand, name.as_slice())
        }
    }
}

// Two operands, the left one first.
#[cycle(walk)]
fn operands(
    env: &mut Environment,
    tree: &Tree,
    left: ExprId,
    right: ExprId,
) -> Result<(NodeId, NodeId), TypeError>
    requires left { IsExpr tree.now left }
    requires right { IsExpr tree.now right }
    ensures agrees { (x y : Expr) → Stands tree.now left x → Stands tree.now right y →
        Finds env.old env.new (AreBoth env.new.table) (operands_by_rules x y env.old.env) result }
    ensures kept { Stays env.old env.new }
{
    let left = expression(env, tree, left)?;
    let right = expression(env, tree, right)?;
    Ok((left, right))
}

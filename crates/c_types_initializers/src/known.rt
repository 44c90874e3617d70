//! The values of scalars before a run (C11 6.6, 6.7.9).

ghost use Rattle.std.specs.Prelude.{◌≡◌, ◌<◌, length};
ghost use Rattle.c_syntax.specs.Stands.{Stands};
ghost use Rattle.c_syntax.specs.Syntax.{Expr};
ghost use Rattle.c_types_table.specs.Tables.{type_at};
ghost use Rattle.c_types_rules.specs.Initials.{address_in as address_by_rules, known as known_by_rules, known_before as known_before_by_rules, named_under_address as named_by_rules, number_as as number_by_rules, stored_as as stored_by_rules};
ghost use Rattle.c_types_nodes.specs.Tables.{IsNode, node_at};
ghost use Rattle.c_types_program.specs.Declarations.{known_in};
ghost use Rattle.c_types_expressions.specs.Found.{Finds, Stays};
ghost use Rattle.c_types_expressions.specs.Walks.{IsExpr};
ghost use Rattle.c_types_initializers.specs.Values.{IsKnown};

use crate::addresses::{global_known, known_by, named_under_address};
use c_syntax::{ExprId, Tree};
use c_types_environment::Environment;
use c_types_expressions::expression;
use c_types_nodes::NodeId;
use c_types_operators::TypeError;
use c_types_program::Known;
use c_types_table::{Ty, TypeId};
use r2_num::wrap;

/// The value of a scalar of a type, which an expression gives: known before a run, and converted as if by assignment.
///
/// Errors are as for `initial`.
pub fn known(env: &mut Environment, tree: &Tree, id: ExprId, ty: TypeId) -> Result<Known, TypeError>
    requires id { IsExpr tree.now id }
    requires ty { ty.0 < length env.old.table.types }
    ensures agrees { (x : Expr) → Stands tree.now id x →
        Finds env.old env.new IsKnown (known_by_rules env.old.env (type_at env.old.table.types ty) x)
        result }
    ensures kept { Stays env.old env.new }
{
    let from = tree.expr(id).from;
    let node = expression(env, tree, id)?;
    let known = known_before(env, tree, id, node)?;
    let value = env.value_of(node)?;
    env.assigned(from, ty, value)?;
    Ok(stored_as(env, ty, known))
}

// A number as an object of a type has it.
fn number_as(env: &Environment, ty: TypeId, number: i128) -> i128
    requires { ty.0 < length env.now.table.types }
    ensures { result ≡ number_by_rules (type_at env.now.table.types ty) number }
{
    match env.table().types().get(ty) {
        Ty::Int(kind) => wrap(*kind, number),
        _ => number,
    }
}

// What an object of a type has that is given this.
fn stored_as(env: &Environment, ty: TypeId, known: Known) -> Known
    requires { ty.0 < length env.now.table.types }
    ensures { known_in result ≡ stored_by_rules (type_at env.now.table.types ty) (known_in known) }
{
    match known {
        Known::Number(number) => Known::Number(number_as(env, ty, number)),
        _ => known,
    }
}

// What a node is before a run: a number, where it is an integer constant expression, or an address.
fn known_before(
    env: &mut Environment,
    tree: &Tree,
    id: ExprId,
    node: NodeId,
) -> Result<Known, TypeError>
    requires id { IsExpr tree.now id }
    requires node { IsNode env.old.table node }
    ensures agrees { (x : Expr) → Stands tree.now id x →
        Finds env.old env.new IsKnown (known_before_by_rules env.old.env x (node_at env.old.table node))
        result }
    ensures kept { Stays env.old env.new }
{
    let value = env.value_of(node)?;
    match env.table().integer_constant(value) {
        Some(number) => Ok(Known::Number(number)),
        None => address_in(env, tree, id, node),
    }
}

// The address of what is named, or stands under `&`.
fn address_in(
    env: &mut Environment,
    tree: &Tree,
    id: ExprId,
    node: NodeId,
) -> Result<Known, TypeError>
    requires id { IsExpr tree.now id }
    requires node { IsNode env.old.table node }
    ensures agrees { (x : Expr) → Stands tree.now id x →
        Finds env.old env.new IsKnown (address_by_rules env.old.env x (node_at env.old.table node)
        (named_by_rules x)) result }
    ensures kept { Stays env.old env.new }
{
    let from = tree.expr(id).from;
    match named_under_address(tree, id) {
        Some(name) => {
            let named = expression(env, tree, name)?;
            global_known(env, named).ok_or(TypeError::Rule(from, 16))
        }
        None => known_by(env, tree, id, node).ok_or(TypeError::Rule(from, 16)),
    }
}

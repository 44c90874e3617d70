//! `+`, `-`, `~` and `!` before an operand (C11 6.5.3.3).

ghost use Rattle.std.specs.Prelude.{◌≡◌};
ghost use Rattle.c_types_rules.specs.Operators.{as_it_is, promoted_operand, signed_operand as signed_operand_of};
ghost use Rattle.c_types_rules.specs.TypedTree.{Complement, Negate};
ghost use Rattle.c_types_nodes.specs.Tables.{IsValueAt, Keeps, value_at};
ghost use Rattle.c_types_operators.specs.Answers.{Agrees, IsAt};

use crate::arithmetic::to_kind;
use crate::error::TypeError;
use crate::queries::{is_scalar, kind_of};
use c_lexer::Sign;
use c_types_nodes::{Node, NodeId, TypedTable};
use r2_num::promote;

// `+`
fn promoted(table: &mut TypedTable, from: u32, value: NodeId) -> Result<NodeId, TypeError>
    requires { IsValueAt table.old value }
    ensures agrees { Agrees (IsAt table.new) (promoted_operand from as_it_is (value_at table.old value))
        result }
    ensures kept { Keeps table.old table.new }
{
    let Some(kind) = kind_of(table, value) else {
        return Err(TypeError::Rule(from, 5));
    };
    let kind = promote(kind);
    Ok(to_kind(table, kind, value)?)
}

// `-`
fn negated(table: &mut TypedTable, from: u32, value: NodeId) -> Result<NodeId, TypeError>
    requires { IsValueAt table.old value }
    ensures agrees { Agrees (IsAt table.new) (promoted_operand from Negate (value_at table.old value))
        result }
    ensures kept { Keeps table.old table.new }
{
    let Some(kind) = kind_of(table, value) else {
        return Err(TypeError::Rule(from, 5));
    };
    let kind = promote(kind);
    let value = to_kind(table, kind, value)?;
    Ok(table.add(Node::Negate(kind, value))?)
}

// `~`
fn complemented(table: &mut TypedTable, from: u32, value: NodeId) -> Result<NodeId, TypeError>
    requires { IsValueAt table.old value }
    ensures agrees { Agrees (IsAt table.new) (promoted_operand from Complement (value_at table.old value))
        result }
    ensures kept { Keeps table.old table.new }
{
    let Some(kind) = kind_of(table, value) else {
        return Err(TypeError::Rule(from, 5));
    };
    let kind = promote(kind);
    let value = to_kind(table, kind, value)?;
    Ok(table.add(Node::Complement(kind, value))?)
}

// `!`
fn logical_not(table: &mut TypedTable, from: u32, value: NodeId) -> Result<NodeId, TypeError>
    requires { IsValueAt table.old value }
    ensures agrees { Agrees (IsAt table.new) (signed_operand_of from Sign.Exclamation
        (value_at table.old value)) result }
    ensures kept { Keeps table.old table.new }
{
    if !is_scalar(table, value) {
        return Err(TypeError::Rule(from, 10));
    }
    Ok(table.add(Node::Not(value))?)
}

/// What `+`, `-`, `~` or `!` makes of its operand's value. `Rule` names the rule that the node at `from` breaks.
pub fn signed_operand(
    table: &mut TypedTable,
    from: u32,
    sign: Sign,
    value: NodeId,
) -> Result<NodeId, TypeError>
    requires { IsValueAt table.old value }
    ensures agrees { Agrees (IsAt table.new) (signed_operand_of from sign (value_at table.old value))
        result }
    ensures kept { Keeps table.old table.new }
{
    match sign {
        Sign::Plus => promoted(table, from, value),
        Sign::Minus => negated(table, from, value),
        Sign::Tilde => complemented(table, from, value),
        Sign::Exclamation => logical_not(table, from, value),
        _ => Err(TypeError::Rule(from, 5)),
    }
}

//! `&&` and `||` (C11 6.5.13, 6.5.14), and the comma operator (C11 6.5.17).

ghost use Rattle.std.specs.Prelude.{◌≡◌};
ghost use Rattle.c_types_rules.specs.Checked.{Fine};
ghost use Rattle.c_types_rules.specs.Operators.{logical};
ghost use Rattle.c_types_rules.specs.TypedTree.{Both, Either, Sequence};
ghost use Rattle.c_types_nodes.specs.Tables.{IsValueAt, Keeps, value_at};
ghost use Rattle.c_types_operators.specs.Answers.{Agrees, IsAt};

use crate::error::TypeError;
use crate::queries::is_scalar;
use c_types_nodes::{Node, NodeId, TypedTable};

/// `&&`
pub fn both(
    table: &mut TypedTable,
    from: u32,
    left: NodeId,
    right: NodeId,
) -> Result<NodeId, TypeError>
    requires left { IsValueAt table.old left }
    requires right { IsValueAt table.old right }
    ensures agrees { Agrees (IsAt table.new) (logical from Both (value_at table.old left)
        (value_at table.old right)) result }
    ensures kept { Keeps table.old table.new }
{
    if !is_scalar(table, left) {
        return Err(TypeError::Rule(from, 10));
    }
    if !is_scalar(table, right) {
        return Err(TypeError::Rule(from, 10));
    }
    Ok(table.add(Node::Both(left, right))?)
}

/// `||`
pub fn either(
    table: &mut TypedTable,
    from: u32,
    left: NodeId,
    right: NodeId,
) -> Result<NodeId, TypeError>
    requires left { IsValueAt table.old left }
    requires right { IsValueAt table.old right }
    ensures agrees { Agrees (IsAt table.new) (logical from Either (value_at table.old left)
        (value_at table.old right)) result }
    ensures kept { Keeps table.old table.new }
{
    if !is_scalar(table, left) {
        return Err(TypeError::Rule(from, 10));
    }
    if !is_scalar(table, right) {
        return Err(TypeError::Rule(from, 10));
    }
    Ok(table.add(Node::Either(left, right))?)
}

/// `,`
pub fn sequence(table: &mut TypedTable, left: NodeId, right: NodeId) -> Result<NodeId, TypeError>
    requires left { IsValueAt table.old left }
    requires right { IsValueAt table.old right }
    ensures agrees { Agrees (IsAt table.new) (Fine
        (Sequence (value_at table.old left) (value_at table.old right))) result }
    ensures kept { Keeps table.old table.new }
{
    Ok(table.add(Node::Sequence(left, right))?)
}

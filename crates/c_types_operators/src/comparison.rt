//! Comparisons (C11 6.5.8, 6.5.9).

ghost use Rattle.std.specs.Prelude.{◌≡◌, ◌<◌, length};
ghost use Rattle.c_types_rules.specs.Checked.{Fine};
ghost use Rattle.c_types_rules.specs.Constants.{is_null};
ghost use Rattle.c_types_rules.specs.Operators.{are_comparable as are_comparable_types, comparison as comparison_of};
ghost use Rattle.c_types_rules.specs.TypedTree.{Convert, PointerComparison, value_type};
ghost use Rattle.c_types_table.specs.Tables.{type_at};
ghost use Rattle.c_types_nodes.specs.Tables.{IsValueAt, Keeps, value_at};
ghost use Rattle.c_types_operators.specs.Answers.{Agrees, IsAt, if_kept};

use crate::arithmetic::arithmetic;
use crate::error::TypeError;
use crate::queries::{are_equal, target_of};
use c_types_nodes::{Node, NodeId, TypedTable};
use c_types_table::{Ty, TypeId};
use r2_num::Op;

// Whether pointers to these can be compared: of one type, or one of them to void.
fn are_comparable(table: &TypedTable, left: TypeId, right: TypeId) -> bool
    requires left { left.0 < length table.now.types }
    requires right { right.0 < length table.now.types }
    ensures { result ≡ are_comparable_types (type_at table.now.types left) (type_at table.now.types right) }
{
    are_equal(table, left, right)
        || matches!(table.types().get(left), Ty::Void)
        || matches!(table.types().get(right), Ty::Void)
}

// Two pointers, which must be comparable.
fn two_pointers(
    table: &mut TypedTable,
    from: u32,
    op: Op,
    targets: (TypeId, TypeId),
    left: NodeId,
    right: NodeId,
) -> Result<NodeId, TypeError>
    requires left_target { targets.0.0 < length table.old.types }
    requires right_target { targets.1.0 < length table.old.types }
    requires left { IsValueAt table.old left }
    requires right { IsValueAt table.old right }
    ensures agrees { Agrees (IsAt table.new) (if_kept from 5
        (are_comparable_types (type_at table.old.types targets.0) (type_at table.old.types targets.1))
        (Fine (PointerComparison op (value_at table.old left) (value_at table.old right)))) result }
    ensures kept { Keeps table.old table.new }
{
    if !are_comparable(table, targets.0, targets.1) {
        return Err(TypeError::Rule(from, 5));
    }
    Ok(table.add(Node::PointerComparison(op, left, right))?)
}

// A pointer and what must be the constant 0, which is converted to the pointer's type (C11 6.5.9, 5).
fn null_on_the_right(
    table: &mut TypedTable,
    from: u32,
    op: Op,
    left: NodeId,
    right: NodeId,
) -> Result<NodeId, TypeError>
    requires left { IsValueAt table.old left }
    requires right { IsValueAt table.old right }
    ensures agrees { Agrees (IsAt table.new) (if_kept from 5 (is_null (value_at table.old right))
        (Fine (PointerComparison op (value_at table.old left)
        (Convert (value_type (value_at table.old left)) (value_at table.old right))))) result }
    ensures kept { Keeps table.old table.new }
{
    if !table.is_null(right) {
        return Err(TypeError::Rule(from, 5));
    }
    let ty = table.type_of(left);
    let right = table.add(Node::Convert(ty, right))?;
    Ok(table.add(Node::PointerComparison(op, left, right))?)
}

fn null_on_the_left(
    table: &mut TypedTable,
    from: u32,
    op: Op,
    left: NodeId,
    right: NodeId,
) -> Result<NodeId, TypeError>
    requires left { IsValueAt table.old left }
    requires right { IsValueAt table.old right }
    ensures agrees { Agrees (IsAt table.new) (if_kept from 5 (is_null (value_at table.old left))
        (Fine (PointerComparison op (Convert (value_type (value_at table.old right))
        (value_at table.old left)) (value_at table.old right)))) result }
    ensures kept { Keeps table.old table.new }
{
    if !table.is_null(left) {
        return Err(TypeError::Rule(from, 5));
    }
    let ty = table.type_of(right);
    let left = table.add(Node::Convert(ty, left))?;
    Ok(table.add(Node::PointerComparison(op, left, right))?)
}

/// Integers, or pointers, or a pointer and the constant 0.
pub fn comparison(
    table: &mut TypedTable,
    from: u32,
    op: Op,
    left: NodeId,
    right: NodeId,
) -> Result<NodeId, TypeError>
    requires left { IsValueAt table.old left }
    requires right { IsValueAt table.old right }
    ensures agrees { Agrees (IsAt table.new) (comparison_of from op (value_at table.old left)
        (value_at table.old right)) result }
    ensures kept { Keeps table.old table.new }
{
    match target_of(table, left) {
        Some(target) => match target_of(table, right) {
            Some(other) => two_pointers(table, from, op, (target, other), left, right),
            None => null_on_the_right(table, from, op, left, right),
        },
        None => match target_of(table, right) {
            Some(_) => null_on_the_left(table, from, op, left, right),
            None => arithmetic(table, from, op, left, right),
        },
    }
}

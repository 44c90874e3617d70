//! Operators on two integers (C11 6.5.5 to 6.5.7, 6.5.10 to 6.5.12).

ghost use Rattle.std.specs.Prelude.{◌≡◌, ◌⊎◌, IfOk};
ghost use Rattle.r2_num.specs.declared.operations.Op.TheVariants.{Shl, Shr};
ghost use Rattle.c_types_model.specs.Types.{Integer};
ghost use Rattle.c_types_rules.specs.Operators.{arithmetic as arithmetic_of, shift as shift_of, to_kind};
ghost use Rattle.c_types_rules.specs.TypedTree.{Arithmetic};
ghost use Rattle.c_types_nodes.specs.Parts.{IsRightType};
ghost use Rattle.c_types_nodes.specs.Tables.{IsValueAt, Keeps, value_at};
ghost use Rattle.c_types_operators.specs.Answers.{Agrees, IsAt};

use crate::error::TypeError;
use crate::queries::kind_of;
use c_types_nodes::{Node, NodeId, TypedTable};
use r2_num::{IntKind, Op, common, promote};
use std::alloc::AllocError;

/// The value, converted to an integer kind.
pub fn to_kind(table: &mut TypedTable, kind: IntKind, value: NodeId) -> Result<NodeId, AllocError>
    requires { IsValueAt table.old value }
    ensures added { IfOk result (IsAt table.new (to_kind kind (value_at table.old value))) }
    ensures kept { Keeps table.old table.new }
{
    let ty = table.kind_type(kind);
    table.add(Node::Convert(ty, value))
}

// The operator on two values, each converted to a kind.
fn on_kinds(
    table: &mut TypedTable,
    op: Op,
    left_kind: IntKind,
    right_kind: IntKind,
    left: NodeId,
    right: NodeId,
) -> Result<NodeId, AllocError>
    requires left { IsValueAt table.old left }
    requires right { IsValueAt table.old right }
    requires kinds { IsRightType op left_kind (Integer right_kind) }
    ensures added { IfOk result (IsAt table.new
        (Arithmetic op left_kind (to_kind left_kind (value_at table.old left))
        (to_kind right_kind (value_at table.old right)))) }
    ensures kept { Keeps table.old table.new }
{
    let left = to_kind(table, left_kind, left)?;
    let right = to_kind(table, right_kind, right)?;
    table.add(Node::Arithmetic(op, left_kind, left, right))
}

/// Two integers, converted to their common kind (C11 6.3.1.8).
pub fn arithmetic(
    table: &mut TypedTable,
    from: u32,
    op: Op,
    left: NodeId,
    right: NodeId,
) -> Result<NodeId, TypeError>
    requires left { IsValueAt table.old left }
    requires right { IsValueAt table.old right }
    ensures agrees { Agrees (IsAt table.new) (arithmetic_of from op (value_at table.old left)
        (value_at table.old right)) result }
    ensures kept { Keeps table.old table.new }
{
    let Some(left_kind) = kind_of(table, left) else {
        return Err(TypeError::Rule(from, 5));
    };
    let Some(right_kind) = kind_of(table, right) else {
        return Err(TypeError::Rule(from, 5));
    };
    let kind = common(left_kind, right_kind);
    Ok(on_kinds(table, op, kind, kind, left, right)?)
}

/// A shift, each side of which is promoted by itself (C11 6.5.7, 3).
pub fn shift(
    table: &mut TypedTable,
    from: u32,
    op: Op,
    left: NodeId,
    right: NodeId,
) -> Result<NodeId, TypeError>
    requires op { (op ≡ Shl) ⊎ (op ≡ Shr) }
    requires left { IsValueAt table.old left }
    requires right { IsValueAt table.old right }
    ensures agrees { Agrees (IsAt table.new) (shift_of from op (value_at table.old left)
        (value_at table.old right)) result }
    ensures kept { Keeps table.old table.new }
{
    let Some(left_kind) = kind_of(table, left) else {
        return Err(TypeError::Rule(from, 5));
    };
    let Some(right_kind) = kind_of(table, right) else {
        return Err(TypeError::Rule(from, 5));
    };
    let left_kind = promote(left_kind);
    let right_kind = promote(right_kind);
    Ok(on_kinds(table, op, left_kind, right_kind, left, right)?)
}

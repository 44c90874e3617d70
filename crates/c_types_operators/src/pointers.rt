//! Pointers and integers (C11 6.5.6).

ghost use Rattle.std.specs.Prelude.{◌≡◌, ◌<◌, length};
ghost use Rattle.c_types_rules.specs.Operators.{difference as difference_of, pointer_difference as pointer_difference_of, pointer_sum as pointer_sum_of, sum as sum_of};
ghost use Rattle.c_types_table.specs.Tables.{type_at};
ghost use Rattle.c_types_nodes.specs.Parts.{sum_in};
ghost use Rattle.c_types_nodes.specs.Tables.{IsValueAt, Keeps, value_at};
ghost use Rattle.c_types_operators.specs.Answers.{Agrees, IsAt};

use crate::arithmetic::{arithmetic, to_kind};
use crate::error::TypeError;
use crate::queries::{are_equal, is_integer, size_of, target_of};
use c_types_model::Extent;
use c_types_nodes::{Node, NodeId, Sum, TypedTable};
use c_types_table::TypeId;
use r2_num::{IntKind, Op};

/// A pointer to a complete object and an integer (C11 6.5.6, 2 and 3), in this order.
pub fn pointer_sum(
    table: &mut TypedTable,
    structs: &[Extent],
    from: u32,
    sum: Sum,
    target: TypeId,
    pointer: NodeId,
    index: NodeId,
) -> Result<NodeId, TypeError>
    requires target { target.0 < length table.old.types }
    requires pointer { IsValueAt table.old pointer }
    requires index { IsValueAt table.old index }
    ensures agrees { Agrees (IsAt table.new) (pointer_sum_of structs.now from 5 (sum_in sum)
        (type_at table.old.types target) (value_at table.old pointer) (value_at table.old index)) result }
    ensures kept { Keeps table.old table.new }
{
    let Some(size) = size_of(table, structs, target) else {
        return Err(TypeError::Rule(from, 5));
    };
    if !is_integer(table, index) {
        return Err(TypeError::Rule(from, 5));
    }
    let index = to_kind(table, IntKind::I64, index)?;
    Ok(table.add(Node::PointerSum {
        sum,
        pointer,
        index,
        size,
    })?)
}

/// `+` (C11 6.5.6).
pub fn sum(
    table: &mut TypedTable,
    structs: &[Extent],
    from: u32,
    left: NodeId,
    right: NodeId,
) -> Result<NodeId, TypeError>
    requires left { IsValueAt table.old left }
    requires right { IsValueAt table.old right }
    ensures agrees { Agrees (IsAt table.new) (sum_of structs.now from (value_at table.old left)
        (value_at table.old right)) result }
    ensures kept { Keeps table.old table.new }
{
    match target_of(table, left) {
        Some(target) => pointer_sum(table, structs, from, Sum::PointerPlus, target, left, right),
        None => match target_of(table, right) {
            Some(target) => pointer_sum(
                table,
                structs,
                from,
                Sum::PlusPointer,
                target,
                right,
                left,
            ),
            None => arithmetic(table, from, Op::Add, left, right),
        },
    }
}

/// How many elements lie between two pointers to one complete object type (C11 6.5.6, 3).
pub fn pointer_difference(
    table: &mut TypedTable,
    structs: &[Extent],
    from: u32,
    targets: (TypeId, TypeId),
    left: NodeId,
    right: NodeId,
) -> Result<NodeId, TypeError>
    requires left_target { targets.0.0 < length table.old.types }
    requires right_target { targets.1.0 < length table.old.types }
    requires left { IsValueAt table.old left }
    requires right { IsValueAt table.old right }
    ensures agrees { Agrees (IsAt table.new) (pointer_difference_of structs.now from
        (type_at table.old.types targets.0) (type_at table.old.types targets.1) (value_at table.old left)
        (value_at table.old right)) result }
    ensures kept { Keeps table.old table.new }
{
    if !are_equal(table, targets.0, targets.1) {
        return Err(TypeError::Rule(from, 5));
    }
    let Some(size) = size_of(table, structs, targets.0) else {
        return Err(TypeError::Rule(from, 5));
    };
    Ok(table.add(Node::PointerDifference(left, right, size))?)
}

/// `-` between two operands (C11 6.5.6).
pub fn difference(
    table: &mut TypedTable,
    structs: &[Extent],
    from: u32,
    left: NodeId,
    right: NodeId,
) -> Result<NodeId, TypeError>
    requires left { IsValueAt table.old left }
    requires right { IsValueAt table.old right }
    ensures agrees { Agrees (IsAt table.new) (difference_of structs.now from (value_at table.old left)
        (value_at table.old right)) result }
    ensures kept { Keeps table.old table.new }
{
    match target_of(table, left) {
        Some(target) => match target_of(table, right) {
            Some(other) => pointer_difference(table, structs, from, (target, other), left, right),
            None => pointer_sum(table, structs, from, Sum::PointerMinus, target, left, right),
        },
        None => arithmetic(table, from, Op::Sub, left, right),
    }
}

//! Compound assignments (C11 6.5.16.2).

ghost use Rattle.std.specs.Prelude.{◌≡◌, ◌<◌, Some, length};
ghost use Rattle.c_types_model.specs.Types.{PointerTo};
ghost use Rattle.c_types_rules.specs.Operators.{assignment_of, changed as changed_of, compound_of, difference_is_integer as difference_is_integer_of, moved as moved_of, rule_of_right as rule_of_right_by, sum_is_pointer as sum_is_pointer_of};
ghost use Rattle.c_types_rules.specs.TypedTree.{object_type, value_type};
ghost use Rattle.c_types_table.specs.Tables.{type_at};
ghost use Rattle.c_types_nodes.specs.Parts.{way_in};
ghost use Rattle.c_types_nodes.specs.Tables.{IsObjectAt, IsValueAt, Keeps, object_at, value_at};
ghost use Rattle.c_types_operators.specs.Answers.{Agrees, IsAt};
ghost use Rattle.c_types_operators.specs.Assignments.{left_kind, right_kind};

use crate::arithmetic::to_kind;
use crate::error::TypeError;
use crate::queries::{Scalar, are_equal, is_integer, kind_of, scalar_in, size_of, target_of};
use c_types_model::Extent;
use c_types_nodes::{Node, NodeId, TypedTable, Way};
use c_types_table::TypeId;
use r2_num::{IntKind, Op, common, promote};

// The kinds that the two sides of an operator are converted to.
fn kinds_of(op: Op, object: IntKind, value: IntKind) -> (IntKind, IntKind)
    ensures left { result.0 ≡ left_kind op object value }
    ensures right { result.1 ≡ right_kind op object value }
{
    match op {
        Op::Shl | Op::Shr => (promote(object), promote(value)),
        _ => {
            let kind = common(object, value);
            (kind, kind)
        }
    }
}

// The operator on what an integer object of this kind holds, and another integer.
fn changed(
    table: &mut TypedTable,
    from: u32,
    op: Op,
    object: NodeId,
    kind: IntKind,
    value: NodeId,
) -> Result<NodeId, TypeError>
    requires object { IsObjectAt table.old object }
    requires value { IsValueAt table.old value }
    ensures agrees { Agrees (IsAt table.new) (changed_of from op (object_at table.old object) kind
        (value_at table.old value)) result }
    ensures kept { Keeps table.old table.new }
{
    let Some(other) = kind_of(table, value) else {
        return Err(TypeError::Rule(from, 5));
    };
    let kinds = kinds_of(op, kind, other);
    let value = to_kind(table, kinds.1, value)?;
    Ok(table.add(Node::Changed(object, op, kinds.0, value))?)
}

// A pointer object to a complete object moves by an integer's number of elements.
fn moved(
    table: &mut TypedTable,
    structs: &[Extent],
    from: u32,
    way: Way,
    object: NodeId,
    target: TypeId,
    index: NodeId,
) -> Result<NodeId, TypeError>
    requires object { IsObjectAt table.old object }
    requires target { target.0 < length table.old.types }
    requires index { IsValueAt table.old index }
    ensures agrees { Agrees (IsAt table.new) (moved_of structs.now from (way_in way)
        (object_at table.old object) (type_at table.old.types target) (value_at table.old index)) result }
    ensures kept { Keeps table.old table.new }
{
    let Some(size) = size_of(table, structs, target) else {
        return Err(TypeError::Rule(from, 5));
    };
    if !is_integer(table, index) {
        return Err(TypeError::Rule(from, 5));
    }
    let index = to_kind(table, IntKind::I64, index)?;
    Ok(table.add(Node::Moved {
        object,
        way,
        index,
        size,
    })?)
}

// The operator on what a pointer object holds: only `+` and `-` are there.
fn on_pointer(
    table: &mut TypedTable,
    structs: &[Extent],
    from: u32,
    op: Op,
    object: NodeId,
    target: TypeId,
    value: NodeId,
) -> Result<NodeId, TypeError>
    requires object { IsObjectAt table.old object }
    requires target { target.0 < length table.old.types }
    requires value { IsValueAt table.old value }
    ensures agrees { Agrees (IsAt table.new) (compound_of structs.now from op (object_at table.old object)
        (PointerTo (type_at table.old.types target)) (value_at table.old value)) result }
    ensures kept { Keeps table.old table.new }
{
    match op {
        Op::Add => moved(table, structs, from, Way::Up, object, target, value),
        Op::Sub => moved(table, structs, from, Way::Down, object, target, value),
        _ => Err(TypeError::Rule(from, 5)),
    }
}

// Whether the sum of a value of a type and a pointer to a target is a pointer (C11 6.5.6, 2).
fn sum_is_pointer(table: &TypedTable, structs: &[Extent], left: TypeId, target: TypeId) -> bool
    requires left { left.0 < length table.now.types }
    requires target { target.0 < length table.now.types }
    ensures { result ≡ sum_is_pointer_of structs.now (type_at table.now.types left)
        (PointerTo (type_at table.now.types target)) }
{
    match scalar_in(table, left) {
        Some(Scalar::Integer(_)) => size_of(table, structs, target).is_some(),
        _ => false,
    }
}

// Whether the difference of a value of a type and a pointer to a target is an integer (C11 6.5.6, 3).
fn difference_is_integer(
    table: &TypedTable,
    structs: &[Extent],
    left: TypeId,
    target: TypeId,
) -> bool
    requires left { left.0 < length table.now.types }
    requires target { target.0 < length table.now.types }
    ensures { result ≡ difference_is_integer_of structs.now (type_at table.now.types left)
        (PointerTo (type_at table.now.types target)) }
{
    match scalar_in(table, left) {
        Some(Scalar::Pointer(own)) => are_equal(table, own, target)
            && size_of(table, structs, own).is_some(),
        _ => false,
    }
}

// The rule that a right side breaks which is no integer: what the operator gives doesn't fit the object, or it gives nothing.
fn rule_of_right(
    table: &TypedTable,
    structs: &[Extent],
    op: Op,
    object: NodeId,
    value: NodeId,
) -> u8
    requires object { IsObjectAt table.now object }
    requires value { IsValueAt table.now value }
    ensures { result ≡ rule_of_right_by structs.now op (object_type (object_at table.now object))
        (value_type (value_at table.now value)) }
{
    let Some(target) = target_of(table, value) else {
        return 5;
    };
    let left = table.type_of(object);
    let unfit = match op {
        Op::Add => sum_is_pointer(table, structs, left, target),
        Op::Sub => difference_is_integer(table, structs, left, target),
        _ => false,
    };
    if unfit { 6 } else { 5 }
}

// The operator on what an integer or a pointer object holds.
fn on_object(
    table: &mut TypedTable,
    structs: &[Extent],
    from: u32,
    op: Op,
    object: NodeId,
    value: NodeId,
) -> Result<NodeId, TypeError>
    requires object { IsObjectAt table.old object }
    requires value { IsValueAt table.old value }
    ensures agrees { Agrees (IsAt table.new) (compound_of structs.now from op (object_at table.old object)
        (object_type (object_at table.old object)) (value_at table.old value)) result }
    ensures kept { Keeps table.old table.new }
{
    match scalar_in(table, table.type_of(object)) {
        Some(Scalar::Integer(kind)) => changed(table, from, op, object, kind, value),
        Some(Scalar::Pointer(target)) => on_pointer(
            table, structs, from, op, object, target, value,
        ),
        None => Err(TypeError::Rule(from, 5)),
    }
}

/// An assignment with an operator, to an integer or a pointer. Its right side is an integer.
pub fn compound(
    table: &mut TypedTable,
    structs: &[Extent],
    from: u32,
    op: Op,
    object: NodeId,
    value: NodeId,
) -> Result<NodeId, TypeError>
    requires object { IsObjectAt table.old object }
    requires value { IsValueAt table.old value }
    ensures agrees { Agrees (IsAt table.new) (assignment_of structs.now from (Some op)
        (object_at table.old object) (value_at table.old value)) result }
    ensures kept { Keeps table.old table.new }
{
    if !is_integer(table, value) {
        let rule = rule_of_right(table, structs, op, object, value);
        return Err(TypeError::Rule(from, rule));
    }
    on_object(table, structs, from, op, object, value)
}

//! Casts (C11 6.5.4), and conversions as if by assignment (C11 6.5.16.1).

ghost use Rattle.std.specs.Prelude.{◌≡◌, ◌<◌, length};
ghost use Rattle.c_types_rules.specs.Operators.{assigned as assigned_of, can_cast as can_cast_types, cast as cast_of, fits as fits_types};
ghost use Rattle.c_types_rules.specs.TypeTests.{is_object as is_object_type};
ghost use Rattle.c_types_rules.specs.TypedTree.{value_type};
ghost use Rattle.c_types_table.specs.Tables.{type_at};
ghost use Rattle.c_types_nodes.specs.Tables.{IsValueAt, Keeps, value_at};
ghost use Rattle.c_types_operators.specs.Answers.{Agrees, IsAt, are_compatible as are_compatible_types};

use crate::error::TypeError;
use crate::queries::are_equal;
use c_types_nodes::{Node, NodeId, TypedTable};
use c_types_table::{Ty, TypeId};
use r2_num::IntKind;

// Whether a value may be cast to a type.
fn can_cast(table: &TypedTable, ty: TypeId, value: NodeId) -> bool
    requires ty { ty.0 < length table.now.types }
    requires value { IsValueAt table.now value }
    ensures { result ≡ can_cast_types (type_at table.now.types ty) (value_type (value_at table.now value)) }
{
    let of = table.types().get(table.type_of(value));
    match table.types().get(ty) {
        Ty::Void => true,
        Ty::Int(kind) => match of {
            Ty::Int(_) => true,
            Ty::Pointer(_) => matches!(kind, IntKind::I64 | IntKind::U64),
            _ => false,
        },
        Ty::Pointer(_) => match of {
            Ty::Pointer(_) => true,
            Ty::Int(kind) => matches!(kind, IntKind::I64 | IntKind::U64),
            _ => false,
        },
        _ => false,
    }
}

/// A cast: to void, among integers, among pointers, and between a pointer and long or unsigned long (C11 6.5.4).
pub fn cast(
    table: &mut TypedTable,
    from: u32,
    ty: TypeId,
    value: NodeId,
) -> Result<NodeId, TypeError>
    requires ty { ty.0 < length table.old.types }
    requires value { IsValueAt table.old value }
    ensures agrees { Agrees (IsAt table.new) (cast_of from (type_at table.old.types ty)
        (value_at table.old value)) result }
    ensures kept { Keeps table.old table.new }
{
    if !can_cast(table, ty, value) {
        return Err(TypeError::Rule(from, 7));
    }
    Ok(table.add(Node::Convert(ty, value))?)
}

// Whether the type is that of an object other than void, complete or not.
fn is_object(table: &TypedTable, ty: TypeId) -> bool
    requires { ty.0 < length table.now.types }
    ensures { result ≡ is_object_type (type_at table.now.types ty) }
{
    !matches!(table.types().get(ty), Ty::Void | Ty::Function { .. })
}

// Whether a pointer to one type may be assigned to a pointer to the other: the types are equal, or one of them is void and the
// other an object type.
fn are_compatible(table: &TypedTable, a: TypeId, b: TypeId) -> bool
    requires left { a.0 < length table.now.types }
    requires right { b.0 < length table.now.types }
    ensures { result ≡ are_compatible_types (type_at table.now.types a) (type_at table.now.types b) }
{
    are_equal(table, a, b)
        || (matches!(table.types().get(a), Ty::Void) && is_object(table, b))
        || (is_object(table, a) && matches!(table.types().get(b), Ty::Void))
}

// Whether a value may be assigned to an object of this type.
fn fits(table: &TypedTable, ty: TypeId, value: NodeId) -> bool
    requires ty { ty.0 < length table.now.types }
    requires value { IsValueAt table.now value }
    ensures { result ≡ fits_types (type_at table.now.types ty) (value_type (value_at table.now value))
        (value_at table.now value) }
{
    let of = table.types().get(table.type_of(value));
    match table.types().get(ty) {
        Ty::Int(_) => matches!(of, Ty::Int(_)),
        Ty::Pointer(target) => match of {
            Ty::Pointer(other) => are_compatible(table, *target, *other),
            Ty::Int(_) => table.is_null(value),
            _ => false,
        },
        _ => false,
    }
}

/// A value, converted as if by assignment to an object of this type (C11 6.5.16.1).
pub fn assigned(
    table: &mut TypedTable,
    from: u32,
    ty: TypeId,
    value: NodeId,
) -> Result<NodeId, TypeError>
    requires ty { ty.0 < length table.old.types }
    requires value { IsValueAt table.old value }
    ensures agrees { Agrees (IsAt table.new) (assigned_of from (type_at table.old.types ty)
        (value_at table.old value)) result }
    ensures kept { Keeps table.old table.new }
{
    if !fits(table, ty, value) {
        return Err(TypeError::Rule(from, 6));
    }
    Ok(table.add(Node::Convert(ty, value))?)
}

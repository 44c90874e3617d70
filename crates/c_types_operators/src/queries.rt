//! Which types values have.

ghost use Rattle.std.specs.Prelude.{◌≡◌, ◌<◌, length};
ghost use Rattle.c_types_rules.specs.TypedTree.{value_type};
ghost use Rattle.c_types_rules.specs.TypeTests.{is_function as is_function_type, is_integer as is_integer_type, is_scalar as is_scalar_type, kind_in, same_type};
ghost use Rattle.c_types_table.specs.Tables.{type_at};
ghost use Rattle.c_types_nodes.specs.Tables.{IsValueAt, value_at};
ghost use Rattle.c_types_operators.specs.Answers.{IsSizeOf, IsTarget};
ghost use Rattle.c_types_operators.specs.Scalars.{IsScalar};

use c_types_model::Extent;
use c_types_nodes::{NodeId, TypedTable};
use c_types_table::{Ty, TypeId};
use r2_num::IntKind;

/// A scalar type (C11 6.2.5, 21).
#[derive(Clone, Copy)]
pub enum Scalar {
    Integer(IntKind),
    /// A pointer, with its target.
    Pointer(TypeId),
}

/// Which scalar type this is; `None` of any other type.
pub fn scalar_in(table: &TypedTable, ty: TypeId) -> Option<Scalar>
    requires { ty.0 < length table.now.types }
    ensures { IsScalar table.now.types (type_at table.now.types ty) result }
{
    match table.types().get(ty) {
        Ty::Int(kind) => Some(Scalar::Integer(*kind)),
        Ty::Pointer(target) => Some(Scalar::Pointer(*target)),
        _ => None,
    }
}

/// The kind of an integer; `None` of any other value.
pub fn kind_of(table: &TypedTable, value: NodeId) -> Option<IntKind>
    requires { IsValueAt table.now value }
    ensures { result ≡ kind_in (value_type (value_at table.now value)) }
{
    match table.types().get(table.type_of(value)) {
        Ty::Int(kind) => Some(*kind),
        _ => None,
    }
}

/// What a pointer points to; `None` of any other value.
pub fn target_of(table: &TypedTable, value: NodeId) -> Option<TypeId>
    requires { IsValueAt table.now value }
    ensures { IsTarget table.now.types (value_type (value_at table.now value)) result }
{
    match table.types().get(table.type_of(value)) {
        Ty::Pointer(target) => Some(*target),
        _ => None,
    }
}

/// Whether a value is an integer.
pub fn is_integer(table: &TypedTable, value: NodeId) -> bool
    requires { IsValueAt table.now value }
    ensures { result ≡ is_integer_type (value_type (value_at table.now value)) }
{
    matches!(table.types().get(table.type_of(value)), Ty::Int(_))
}

/// Whether a value is an integer or a pointer (C11 6.2.5, 21).
pub fn is_scalar(table: &TypedTable, value: NodeId) -> bool
    requires { IsValueAt table.now value }
    ensures { result ≡ is_scalar_type (value_type (value_at table.now value)) }
{
    matches!(
        table.types().get(table.type_of(value)),
        Ty::Int(_) | Ty::Pointer(_)
    )
}

/// Whether the type is that of a function.
pub fn is_function(table: &TypedTable, ty: TypeId) -> bool
    requires { ty.0 < length table.now.types }
    ensures { result ≡ is_function_type (type_at table.now.types ty) }
{
    matches!(table.types().get(ty), Ty::Function { .. })
}

/// Whether the two types are equal.
pub fn are_equal(table: &TypedTable, a: TypeId, b: TypeId) -> bool
    requires left { a.0 < length table.now.types }
    requires right { b.0 < length table.now.types }
    ensures { result ≡ same_type (type_at table.now.types a) (type_at table.now.types b) }
{
    table.types().is_same(a, b)
}

/// The size in bytes of a complete object type; `None` of any other. A size past 2^64 - 1 counts as 2^64 - 1.
pub fn size_of(table: &TypedTable, structs: &[Extent], ty: TypeId) -> Option<u64>
    requires { ty.0 < length table.now.types }
    ensures { IsSizeOf structs.now (type_at table.now.types ty) result }
{
    let extent = table.types().extent(structs, ty)?;
    Some(extent.size)
}

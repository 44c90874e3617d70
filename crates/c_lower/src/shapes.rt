//! Types of values.

ghost use Rattle.std.specs.Prelude.{◌≡◌, ◌<◌, length, IfOk};
ghost use Rattle.std.specs.List.{All};
ghost use Rattle.c_types_table.specs.Tables.{IsBelow, all_at, type_at, types_of};
ghost use Rattle.c_builtins.specs.Table.{ctype_of, ctypes_of};
ghost use Rattle.c_types_rules.specs.Sources.{params_of as params_of_type, result_of as result_of_type};
ghost use Rattle.c_semantics.specs.Context.{shape_of, shapes_of};

use c_builtins::BuiltinType;
use c_code::{Shape, Shapes};
use c_types_table::{Ty, TypeId, Types};
use r2_num::IntKind;
use std::alloc::{AllocError, Global};

// The type of a parameter or result, as far as values tell it.
fn shape(types: &Types, ty: TypeId) -> Shape
    requires { ty.0 < length types.now }
    ensures { result ≡ shape_of (type_at types.now ty) }
{
    match types.get(ty) {
        Ty::Int(kind) => Shape::Int(*kind),
        Ty::Pointer(_) => Shape::Pointer,
        _ => Shape::Void,
    }
}

fn shapes(alloc: Global, types: &Types, ids: &[TypeId]) -> Result<Vec<Shape>, AllocError>
    requires { All (IsBelow (length types.now)) ids.now }
    ensures { IfOk result (λ s. s.items ≡ shapes_of (all_at (types_of types.now) ids.now)) }
{
    let mut shapes = Vec::with_capacity(alloc, ids.len())?;
    for id in ids {
        shapes.push(shape(types, *id))?;
    }
    Ok(shapes)
}

/// The types of the parameters of a function with this type; what is no function has none.
pub fn params(alloc: Global, types: &Types, ty: TypeId) -> Result<Shapes, AllocError>
    requires { ty.0 < length types.now }
    ensures { IfOk result (λ s. s ≡ shapes_of (params_of_type (type_at types.now ty))) }
{
    match types.get(ty) {
        Ty::Function { params, .. } => Ok(Shapes::from(shapes(alloc, types, params.as_slice())?)),
        _ => Ok(Shapes::new(alloc)),
    }
}

/// The type of the result of a function with this type.
pub fn result_shape(types: &Types, ty: TypeId) -> Shape
    requires { ty.0 < length types.now }
    ensures { result ≡ shape_of (result_of_type (type_at types.now ty)) }
{
    match types.get(ty) {
        Ty::Function { result, .. } => shape(types, *result),
        _ => shape(types, ty),
    }
}

/// The type of a builtin's parameter or result.
pub fn builtin_shape(ty: BuiltinType) -> Shape
    ensures { result ≡ shape_of (ctype_of ty) }
{
    match ty {
        BuiltinType::Void => Shape::Void,
        BuiltinType::Int => Shape::Int(IntKind::I32),
        BuiltinType::UnsignedLong => Shape::Int(IntKind::U64),
        BuiltinType::VoidPointer | BuiltinType::CharPointer | BuiltinType::ThreadFunction =>
            Shape::Pointer,
    }
}

/// The types of a builtin's parameters.
pub fn builtin_shapes(alloc: Global, types: &[BuiltinType]) -> Result<Shapes, AllocError>
    ensures { IfOk result (λ s. s ≡ shapes_of (ctypes_of types.now)) }
{
    let mut shapes = Vec::with_capacity(alloc, types.len())?;
    for ty in types {
        shapes.push(builtin_shape(*ty))?;
    }
    Ok(Shapes::from(shapes))
}

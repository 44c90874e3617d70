//! Types of builtins.

ghost use Rattle.std.specs.Prelude.{◌≡◌, ◌<◌, length};
ghost use Rattle.std.specs.List.{All};
ghost use Rattle.c_types_model.specs.Types.{FunctionOf, Integer, PointerTo, Void};
ghost use Rattle.c_types_table.specs.Tables.{IsBelow, all_at, type_at, types_of};
ghost use Rattle.c_builtins.specs.Table.{ctype_of, ctypes_of, prototype_of, thread_function};
ghost use Rattle.c_types_rules.specs.TypeTests.{same_type, same_types};

use c_builtins::{Builtin, BuiltinType};
use c_types_table::{Ty, TypeId, Types};
use r2_num::IntKind;

// Whether it is the type of integers of this kind.
fn is_integer(types: &Types, ty: TypeId, kind: IntKind) -> bool
    requires { ty.0 < length types.now }
    ensures { result ≡ same_type (type_at types.now ty) (Integer kind) }
{
    match types.get(ty) {
        Ty::Int(own) => *own == kind,
        _ => false,
    }
}

fn is_void(types: &Types, ty: TypeId) -> bool
    requires { ty.0 < length types.now }
    ensures { result ≡ same_type (type_at types.now ty) Void }
{
    matches!(types.get(ty), Ty::Void)
}

fn is_void_pointer(types: &Types, ty: TypeId) -> bool
    requires { ty.0 < length types.now }
    ensures { result ≡ same_type (type_at types.now ty) (PointerTo Void) }
{
    match types.get(ty) {
        Ty::Pointer(target) => is_void(types, *target),
        _ => false,
    }
}

fn is_char_pointer(types: &Types, ty: TypeId) -> bool
    requires { ty.0 < length types.now }
    ensures { result ≡ same_type (type_at types.now ty) (PointerTo (Integer IntKind.I8)) }
{
    match types.get(ty) {
        Ty::Pointer(target) => is_integer(types, *target, IntKind::I8),
        _ => false,
    }
}

/// Whether it is what a thread may run: `int (void *)`.
pub fn is_thread_function(types: &Types, ty: TypeId) -> bool
    requires { ty.0 < length types.now }
    ensures { result ≡ same_type (type_at types.now ty) thread_function }
{
    match types.get(ty) {
        Ty::Function { result, params } => match params.as_slice() {
            [] => false,
            [param, more @ ..] => more.is_empty()
                && is_integer(types, *result, IntKind::I32)
                && is_void_pointer(types, *param),
        },
        _ => false,
    }
}

fn is_thread_pointer(types: &Types, ty: TypeId) -> bool
    requires { ty.0 < length types.now }
    ensures { result ≡ same_type (type_at types.now ty) (PointerTo thread_function) }
{
    match types.get(ty) {
        Ty::Pointer(target) => is_thread_function(types, *target),
        _ => false,
    }
}

// Whether it is this type of a builtin's parameter or result.
fn is_type(types: &Types, ty: TypeId, builtin: BuiltinType) -> bool
    requires { ty.0 < length types.now }
    ensures { result ≡ same_type (type_at types.now ty) (ctype_of builtin) }
{
    match builtin {
        BuiltinType::Void => is_void(types, ty),
        BuiltinType::Int => is_integer(types, ty, IntKind::I32),
        BuiltinType::UnsignedLong => is_integer(types, ty, IntKind::U64),
        BuiltinType::VoidPointer => is_void_pointer(types, ty),
        BuiltinType::CharPointer => is_char_pointer(types, ty),
        BuiltinType::ThreadFunction => is_thread_pointer(types, ty),
    }
}

fn are_types(types: &Types, params: &[TypeId], builtins: &[BuiltinType]) -> bool
    requires { All (IsBelow (length types.now)) params.now }
    ensures { result ≡ same_types (all_at (types_of types.now) params.now) (ctypes_of builtins.now) }
{
    match params {
        [] => match builtins {
            [] => true,
            [_, ..] => false,
        },
        [param, params @ ..] => match builtins {
            [] => false,
            [builtin, builtins @ ..] => is_type(types, *param, *builtin)
                && are_types(types, params, builtins),
        },
    }
}

/// Whether it is the type that the builtin is declared with.
pub fn is_prototype(types: &Types, ty: TypeId, builtin: Builtin) -> bool
    requires { ty.0 < length types.now }
    ensures { result ≡ same_type (type_at types.now ty) (prototype_of builtin) }
{
    match types.get(ty) {
        Ty::Function { result, params } => is_type(types, *result, builtin.result())
            && are_types(types, params.as_slice(), builtin.params()),
        _ => false,
    }
}

//! Tests of types.

ghost use Rattle.std.specs.Prelude.{◌≡◌, ◌<◌, length};
ghost use Rattle.c_types_table.specs.Tables.{type_at};
ghost use Rattle.c_types_rules.specs.TypeTests.{is_scalar as is_scalar_type, is_void as is_void_type};

use c_types_environment::Environment;
use c_types_table::{Ty, TypeId};

/// Whether a type is an integer or a pointer (C11 6.2.5, 21).
pub fn is_scalar(env: &Environment, ty: TypeId) -> bool
    requires { ty.0 < length env.now.table.types }
    ensures { result ≡ is_scalar_type (type_at env.now.table.types ty) }
{
    matches!(env.table().types().get(ty), Ty::Int(_) | Ty::Pointer(_))
}

/// Whether a type is void.
pub fn is_void(env: &Environment, ty: TypeId) -> bool
    requires { ty.0 < length env.now.table.types }
    ensures { result ≡ is_void_type (type_at env.now.table.types ty) }
{
    matches!(env.table().types().get(ty), Ty::Void)
}

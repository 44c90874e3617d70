//! Types of functions.

ghost use Rattle.std.specs.Prelude.{◌≡◌, ◌<◌, length};
ghost use Rattle.c_types_table.specs.Tables.{type_at};
ghost use Rattle.c_types_rules.specs.Limits.{count};
ghost use Rattle.c_types_rules.specs.Sources.{main_type, params_of};
ghost use Rattle.c_types_rules.specs.TypeTests.{same_type};

use c_types_environment::Environment;
use c_types_table::{Ty, TypeId};
use r2_num::IntKind;

/// Whether a type is that of the function where a program begins: `int (void)` (C11 5.1.2.2.1).
pub(crate) fn is_main_type(env: &Environment, ty: TypeId) -> bool
    requires { ty.0 < length env.now.table.types }
    ensures { result ≡ same_type (type_at env.now.table.types ty) main_type }
{
    match env.table().types().get(ty) {
        Ty::Function { result, params } => {
            params.as_slice().is_empty()
                && matches!(env.table().types().get(*result), Ty::Int(IntKind::I32))
        }
        _ => false,
    }
}

/// How many parameters a function of this type has; none where it is no function's.
pub(crate) fn param_count(env: &Environment, ty: TypeId) -> usize
    requires { ty.0 < length env.now.table.types }
    ensures { result ≡ count (params_of (type_at env.now.table.types ty)) }
{
    match env.table().types().get(ty) {
        Ty::Function { params, .. } => params.as_slice().len(),
        _ => 0,
    }
}

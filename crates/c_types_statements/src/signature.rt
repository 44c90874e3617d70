//! Types of functions, by their parts.

ghost use Rattle.std.specs.Prelude.{◌≡◌, ◌<◌, length, IfOk};
ghost use Rattle.c_syntax.specs.Nodes.{Nodes};
ghost use Rattle.c_syntax.specs.Stands.{StandDecls, StandParts};
ghost use Rattle.c_syntax.specs.Syntax.{Parts};
ghost use Rattle.c_types_table.specs.Tables.{type_at};
ghost use Rattle.c_types_rules.specs.Sources.{nearest as nearest_by_rules};
ghost use Rattle.c_types_expressions.specs.Walks.{AreDecls, AreParts};
ghost use Rattle.c_types_statements.specs.Typed.{IsSignature};

use c_syntax::{DeclId, Part, PartKind};
use c_types_environment::Environment;
use c_types_table::{Ty, TypeId};
use std::alloc::AllocError;

/// The type that a function gives, or nothing, and the types of its parameters.
#[derive(Drop)]
pub struct Signature {
    pub result: TypeId,
    pub params: Vec<TypeId>,
}

/// The signature of a function of this type; what is no function takes nothing, and gives what it is.
pub fn signature_of(env: &Environment, ty: TypeId) -> Result<Signature, AllocError>
    requires { ty.0 < length env.now.table.types }
    ensures { IfOk result (IsSignature env.now.table.types (type_at env.now.table.types ty)) }
{
    match env.table().types().get(ty) {
        Ty::Function { result, params } => {
            let result = *result;
            let params = Vec::from_slice(env.alloc(), params.as_slice())?;
            Ok(Signature { result, params })
        }
        _ => Ok(Signature {
            result: ty,
            params: Vec::new(env.alloc()),
        }),
    }
}

/// The parameters in the part of a declarator that stands nearest to its name; none where that part has none.
pub fn nearest_params(parts: &[Part]) -> &[DeclId]
    ensures stand { (N : Nodes) (ps : Parts) → StandParts N parts.now ps →
        StandDecls N result.now (nearest_by_rules ps) }
    ensures inside { (N : Nodes) → AreParts N parts.now → AreDecls N result.now }
{
    let Some(nearest) = parts.last() else {
        return &[];
    };
    match &nearest.kind {
        PartKind::Params(ids) => ids.as_slice(),
        _ => &[],
    }
}

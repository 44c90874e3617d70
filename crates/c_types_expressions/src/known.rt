//! Declarations that share their specifiers (C11 6.7).

ghost use Rattle.std.specs.Prelude.{IfOk, OnOk};
ghost use Rattle.c_syntax.specs.Stands.{StandsDecl};
ghost use Rattle.c_syntax.specs.Syntax.{Decl};
ghost use Rattle.c_types_rules.specs.Expressions.{declared_type as declared_by_rules};
ghost use Rattle.c_types_environment.specs.States.{KeepsAll};
ghost use Rattle.c_types_expressions.specs.Found.{Finds, IsType, Stays};
ghost use Rattle.c_types_expressions.specs.Specified.{IsOf, IsSpecified, Specifies};
ghost use Rattle.c_types_expressions.specs.Walks.{IsDecl};

use crate::declarators::declarator;
use crate::sizes::note_size;
use c_syntax::{DeclId, Tree};
use c_types_environment::Environment;
use c_types_operators::TypeError;
use c_types_table::TypeId;
use std::alloc::AllocError;

/// The type that the specifiers of a declaration make.
#[derive(Clone, Copy)]
pub struct Specified {
    pub decl: DeclId,
    pub ty: TypeId,
}

// The type that the specifiers of a declaration make. It isn't looked up where they are those of one of which it is known.
fn specified_type(
    env: &mut Environment,
    tree: &Tree,
    id: DeclId,
    known: Option<Specified>,
) -> Result<TypeId, AllocError>
    requires id { IsDecl tree.now id }
    requires known { IsSpecified env.old tree.now known }
    ensures ty { IfOk result (Specifies env.new tree.now id) }
    ensures kept { KeepsAll env.old env.new }
{
    if let Some(known) = known {
        if tree.share_specifiers(known.decl, id) {
            return Ok(known.ty);
        }
    }
    env.base_type(&tree.decl(id).base)
}

/// The same as `declared_type`, where the type that the specifiers of an earlier declaration make may be known: where both share
/// them it isn't looked up again. Then that of this one is known.
pub fn declared_type_after(
    env: &mut Environment,
    tree: &Tree,
    id: DeclId,
    known: &mut Option<Specified>,
) -> Result<TypeId, TypeError>
    requires id { IsDecl tree.now id }
    requires known { IsSpecified env.old tree.now known.old }
    ensures agrees { (d : Decl) → StandsDecl tree.now id d →
        Finds env.old env.new (IsType env.new.table) (declared_by_rules d env.old.env) result }
    ensures known { OnOk result (IsSpecified env.new tree.now known.new) }
    ensures of { OnOk result (IsOf id known.new) }
    ensures kept { Stays env.old env.new }
{
    let base = specified_type(env, tree, id, *known)?;
    let decl = tree.decl(id);
    let ty = declarator(env, tree, decl.parts.as_slice(), base)?;
    note_size(env, ty);
    *known = Some(Specified { decl: id, ty: base });
    Ok(ty)
}

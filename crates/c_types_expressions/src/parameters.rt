//! Parameters (C11 6.7.6.3).

ghost use Rattle.std.specs.Prelude.{◌≡◌, ◌<◌, ℕ, length};
ghost use Rattle.c_syntax.specs.Stands.{StandDecls, StandsDecl};
ghost use Rattle.c_syntax.specs.Syntax.{Decl, Decls};
ghost use Rattle.c_types_table.specs.Tables.{type_at};
ghost use Rattle.c_types_rules.specs.Environment.{inner};
ghost use Rattle.c_types_rules.specs.Expressions.{parameter_scope, parameter_type as parameter_by_rules, parameter_types as parameters_by_rules};
ghost use Rattle.c_types_expressions.specs.Found.{AreTypes, Finds, IsType, Stays, StaysAround};
ghost use Rattle.c_types_expressions.specs.Walks.{AreDecls, IsDecl};

use crate::annotations::annotation_types;
use crate::declarators::declarator;
use crate::sizes::adjusted;
use c_syntax::{DeclId, Tree};
use c_types_environment::{Environment, Meaning, append};
use c_types_operators::TypeError;
use c_types_table::{TypeId, TypeIds};
use std::alloc::AllocError;

/// The types of parameters. Each name is declared for the parameters after it, in a scope that is closed in the end, also after an
/// error. Errors are as for `declared_type`.
#[cycle(walk)]
pub fn parameter_types(
    env: &mut Environment,
    tree: &Tree,
    ids: &[DeclId],
) -> Result<TypeIds, TypeError>
    requires { AreDecls tree.now ids.now }
    ensures agrees { (ds : Decls) → StandDecls tree.now ids.now ds →
        Finds env.old env.new (AreTypes env.new.table) (parameters_by_rules ds (inner env.old.env) 0)
        result }
    ensures kept { Stays env.old env.new }
{
    env.open_scope()?;
    let types = types_here(env, tree, ids);
    env.close_scope();
    types
}

// The types of parameters, whose names are declared in the innermost scope.
#[cycle(walk)]
fn types_here(env: &mut Environment, tree: &Tree, ids: &[DeclId]) -> Result<TypeIds, TypeError>
    requires { AreDecls tree.now ids.now }
    ensures agrees { (ds : Decls) → StandDecls tree.now ids.now ds →
        Finds env.old env.new (AreTypes env.new.table) (parameters_by_rules ds env.old.env 0) result }
    ensures kept { StaysAround env.old env.new }
{
    let mut types = Vec::with_capacity(env.alloc(), ids.len())?;
    for (place, id) in ids.iter().enumerate() {
        let ty = parameter_type(env, tree, *id)?;
        declare(env, tree, *id, place, ty)?;
        append(&mut types, ty)?;
    }
    Ok(TypeIds::from(types))
}

// The type of a parameter.
#[cycle(walk)]
fn parameter_type(env: &mut Environment, tree: &Tree, id: DeclId) -> Result<TypeId, TypeError>
    requires { IsDecl tree.now id }
    ensures agrees { (d : Decl) → StandsDecl tree.now id d →
        Finds env.old env.new (IsType env.new.table) (parameter_by_rules d env.old.env) result }
    ensures kept { Stays env.old env.new }
{
    let decl = tree.decl(id);
    annotation_types(env, tree, decl.annots.as_slice())?;
    let base = env.base_type(&decl.base)?;
    let ty = declarator(env, tree, decl.parts.as_slice(), base)?;
    adjusted(env, decl.from, ty)
}

// Declares the name of the parameter of this place, where it has one.
fn declare(
    env: &mut Environment,
    tree: &Tree,
    id: DeclId,
    place: usize,
    ty: TypeId,
) -> Result<(), TypeError>
    requires id { IsDecl tree.now id }
    requires ty { ty.0 < length env.old.table.types }
    ensures agrees { (d : Decl) → StandsDecl tree.now id d →
        Finds env.old env.new (λ e _. env.new.env ≡ e)
        (parameter_scope d env.old.env place (type_at env.old.table.types ty)) result }
    ensures kept { StaysAround env.old env.new }
{
    let decl = tree.decl(id);
    let Some(name) = &decl.name else {
        return Ok(());
    };
    let place = u32::try_from(place).map_err(|_| AllocError)?;
    env.declare(decl.from, name.as_slice(), Meaning::Local(place, ty))
}

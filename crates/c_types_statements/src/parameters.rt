//! Parameters of functions with a body (C11 6.9.1, 5).

ghost use Rattle.std.specs.Prelude.{◌≡◌, ◌<◌, length};
ghost use Rattle.std.specs.List.{All};
ghost use Rattle.c_syntax.specs.Stands.{StandDecls, StandsDecl};
ghost use Rattle.c_syntax.specs.Syntax.{Decl, Decls};
ghost use Rattle.c_types_table.specs.Tables.{IsBelow, all_at, type_at, types_of};
ghost use Rattle.c_types_rules.specs.Sources.{parameter as parameter_by_rules, parameters as parameters_by_rules};
ghost use Rattle.c_types_expressions.specs.Found.{Finds, StaysAround};
ghost use Rattle.c_types_expressions.specs.Walks.{AreDecls, IsDecl};

use crate::locals::place_after;
use c_syntax::{DeclId, Tree};
use c_types_environment::{Environment, Meaning};
use c_types_operators::TypeError;
use c_types_table::TypeId;

// Declares the parameter of this place, which has a name.
fn parameter(
    env: &mut Environment,
    tree: &Tree,
    id: DeclId,
    place: usize,
    ty: TypeId,
) -> Result<(), TypeError>
    requires id { IsDecl tree.now id }
    requires ty { ty.0 < length env.old.table.types }
    ensures agrees { (d : Decl) → StandsDecl tree.now id d →
        Finds env.old env.new (λ e _. env.new.env ≡ e)
        (parameter_by_rules d env.old.env place (type_at env.old.table.types ty)) result }
    ensures kept { StaysAround env.old env.new }
{
    let decl = tree.decl(id);
    let Some(name) = &decl.name else {
        return Err(TypeError::Rule(decl.from, 21));
    };
    let place = place_after(place)?;
    env.declare(decl.from, name.as_slice(), Meaning::Local(place, ty))
}

/// Declares parameters of these types in the innermost scope.
///
/// `Rule` names the first rule that one breaks, with its offset; those before it are then declared.
pub fn declare_parameters(
    env: &mut Environment,
    tree: &Tree,
    ids: &[DeclId],
    types: &[TypeId],
) -> Result<(), TypeError>
    requires ids { AreDecls tree.now ids.now }
    requires types { All (IsBelow (length env.old.table.types)) types.now }
    ensures agrees { (ds : Decls) → StandDecls tree.now ids.now ds →
        Finds env.old env.new (λ e _. env.new.env ≡ e)
        (parameters_by_rules ds env.old.env 0 (all_at (types_of env.old.table.types) types.now)) result }
    ensures kept { StaysAround env.old env.new }
{
    for (place, ty) in types.iter().enumerate() {
        let Some(id) = ids.get(place) else {
            return Ok(());
        };
        parameter(env, tree, *id, place, *ty)?;
    }
    Ok(())
}

//! The parameters of a function.

ghost use Rattle.std.specs.Prelude.{◌≡◌, ◌<◌, ◌≤◌, ◌++◌, ◌∷◌, [], length, OnOk};
ghost use Rattle.c_syntax.specs.Stands.{StandDecls, StandsDecl};
ghost use Rattle.c_syntax.specs.Syntax.{Decl as Declaration, Decls};
ghost use Rattle.c_types_model.specs.Types.{CType};
ghost use Rattle.c_types_table.specs.Tables.{all_at, at};
ghost use Rattle.c_types_rules.specs.Expressions.{parameter_scope};
ghost use Rattle.annot_reader_rules.specs.Functions.{all_parameters as all_by_rules, bare_within as bare_within_of};
ghost use Rattle.annot_reader_rules.specs.Regions.{Signature as Known};
ghost use Rattle.annot_reader_words.specs.Answers.{Passes, Tells};
ghost use Rattle.annot_reader_words.specs.Shown.{IsDecl};
ghost use Rattle.annot_reader_functions.specs.Rules.{IsTypeName};
ghost use Rattle.annot_reader_functions.specs.Sorts.{IsKnown};
ghost use Rattle.annot_reader_functions.specs.Parameters.{AreDecls, AreRead, AreTypes, IsRead, StaysAround, one_parameter};
ghost use Rattle.annot_reader_functions.specs.Seen.{declared_by};

use crate::named::type_at;
use crate::regions::parameter_notes;
use crate::rules::{declare_parameter, sort_of};
use crate::signature::Signature;
use annot_reader_words::{AnnotationError, Param, bare_around, decl_node};
use c_syntax::{DeclId, Tree};
use c_types_environment::Environment;
use c_types_table::TypeId;
use std::alloc::{AllocError, Global};

// Declares a parameter, where it has a name.
fn declare(
    env: &mut Environment,
    tree: &Tree,
    id: DeclId,
    place: u32,
    ty: TypeId,
) -> Result<(), AnnotationError>
    requires id { IsDecl tree.now id }
    requires ty { ty.0 < length (declared_by env.old).types }
    ensures { (d : Declaration) → StandsDecl tree.now id d →
        Tells (λ e _. declared_by env.new ≡ record (declared_by env.old) { env = e })
        (parameter_scope d (declared_by env.old).env place (at (declared_by env.old).types ty)) result }
{
    let decl = decl_node(tree, id);
    match &decl.name {
        Some(name) => declare_parameter(env, decl.from, name.as_slice(), place, ty),
        None => Ok(()),
    }
}

// What is said of the parameter at this place, and declares it.
fn parameter(
    alloc: Global,
    env: &mut Environment,
    tree: &Tree,
    signature: &Signature,
    id: DeclId,
    place: u32,
    ty: TypeId,
) -> Result<Param, AnnotationError>
    requires few { length signature.now.params.items ≤ 256 }
    requires id { IsTypeName tree.now id }
    requires ty { ty.0 < length (declared_by env.old).types }
    ensures agrees { (d : Declaration) (s : Known) → StandsDecl tree.now id d →
        IsKnown signature.now (declared_by env.old).env s →
        Tells (IsRead (declared_by env.new)) (one_parameter d s place (at (declared_by env.old).types ty))
        result }
    ensures around { OnOk result (StaysAround (declared_by env.old) (declared_by env.new)) }
{
    bare_around(alloc, tree, decl_node(tree, id))?;
    let sort = sort_of(env, ty);
    let param = parameter_notes(env, tree, signature, sort, id)?;
    declare(env, tree, id, place, ty)?;
    Ok(param)
}

// One more, after those that were read.
fn add(params: &mut Vec<Param>, param: Param) -> Result<(), AllocError>
    ensures { OnOk result (params.new.items ≡ params.old.items ++ param ∷ []) }
{
    params.push(param)?;
    Ok(())
}

/// What is said of the parameters of a function, which are declared one after another in the innermost scope.
pub(crate) fn parameters(
    alloc: Global,
    env: &mut Environment,
    tree: &Tree,
    signature: &Signature,
    ids: &[DeclId],
    types: &[TypeId],
) -> Result<Vec<Param>, AnnotationError>
    requires few { length signature.now.params.items ≤ 256 }
    requires ids { AreDecls tree.now ids.now }
    requires types { AreTypes (declared_by env.old) types.now }
    requires count { length types.now ≤ 256 }
    ensures agrees { (ds : Decls) (s : Known) → StandDecls tree.now ids.now ds →
        IsKnown signature.now (declared_by env.old).env s →
        Tells (λ ps v. AreRead ps v.items) (all_by_rules ds s 0
        (all_at (declared_by env.old).types types.now)) result }
    ensures around { OnOk result (StaysAround (declared_by env.old) (declared_by env.new)) }
{
    let mut params = Vec::new(alloc);
    for (place, id) in ids.iter().enumerate() {
        let Some(ty) = type_at(types, place) else {
            return Ok(params);
        };
        let param = parameter(alloc, env, tree, signature, *id, place as u32, ty)?;
        add(&mut params, param)?;
    }
    Ok(params)
}

//! The parameters of a function by name.

ghost use Rattle.std.specs.Prelude.{◌≡◌, ◌<◌, ◌≤◌, length, slice_get, IfOk};
ghost use Rattle.c_syntax.specs.Stands.{StandDecls};
ghost use Rattle.c_syntax.specs.Syntax.{Decls};
ghost use Rattle.c_types_table.specs.Tables.{all_at, at};
ghost use Rattle.c_types_rules.specs.Environment.{extents};
ghost use Rattle.annot_reader_rules.specs.Functions.{named_parameters};
ghost use Rattle.annot_reader_functions.specs.Sorts.{AreNamed, IsKnown};
ghost use Rattle.annot_reader_functions.specs.First.{signature_with};
ghost use Rattle.annot_reader_functions.specs.Parameters.{AreDecls, AreTypes};
ghost use Rattle.annot_reader_functions.specs.Seen.{declared_by};

use crate::kind::Prototype;
use crate::rules::sort_of;
use crate::signature::{Named, Signature};
use annot_reader_words::decl_node;
use c_syntax::{DeclId, Tree};
use c_types_environment::Environment;
use c_types_table::TypeId;
use std::alloc::{AllocError, Global};

/// The type of the parameter at a place, from 0; `None` past the last.
pub(crate) fn type_at(types: &[TypeId], place: usize) -> Option<TypeId>
    ensures { result ≡ slice_get types.now place }
{
    types.get(place).copied()
}

// The parameters by name, with the sorts of their types.
fn named<'a>(
    alloc: Global,
    env: &Environment,
    tree: &'a Tree,
    ids: &[DeclId],
    types: &[TypeId],
) -> Result<Vec<Named<'a>>, AllocError>
    requires ids { AreDecls tree.now ids.now }
    requires types { AreTypes (declared_by env.now) types.now }
    ensures named { (ds : Decls) → StandDecls tree.now ids.now ds →
        IfOk result (λ v. AreNamed (extents (declared_by env.now).env) v.items
        (named_parameters ds (all_at (declared_by env.now).types types.now))) }
    ensures few { IfOk result (λ v. length v.items ≤ length types.now) }
{
    let mut params = Vec::new(alloc);
    for (place, id) in ids.iter().enumerate() {
        let Some(ty) = type_at(types, place) else {
            return Ok(params);
        };
        let name = decl_node(tree, *id).name.as_ref();
        let sort = sort_of(env, ty);
        params.push(Named { name, sort })?;
    }
    Ok(params)
}

/// What annotations of a function may speak of, whose own parameters are these. `AllocError` where there is no memory for it.
pub(crate) fn signature_of<'a>(
    alloc: Global,
    env: &Environment,
    tree: &'a Tree,
    own: &[DeclId],
    prototype: &Prototype,
) -> Result<Signature<'a>, AllocError>
    requires own { AreDecls tree.now own.now }
    requires result { prototype.now.result.0 < length (declared_by env.now).types }
    requires params { AreTypes (declared_by env.now) prototype.now.params.now }
    ensures known { (ds : Decls) → StandDecls tree.now own.now ds →
        IfOk result (λ g. IsKnown g (declared_by env.now).env
        (signature_with (declared_by env.now).env ds (at (declared_by env.now).types prototype.now.result)
        (all_at (declared_by env.now).types prototype.now.params.now))) }
    ensures few { IfOk result (λ g. length g.params.items ≤ length prototype.now.params.now) }
{
    let params = named(alloc, env, tree, own, prototype.params)?;
    let gives_integer = sort_of(env, prototype.result).is_integer();
    Ok(Signature {
        params,
        gives_integer,
    })
}

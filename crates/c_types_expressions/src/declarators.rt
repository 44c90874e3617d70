//! Declarators and type names (C11 6.7.6, 6.7.7).

ghost use Rattle.std.specs.Prelude.{◌≡◌, ◌<◌, ◌∷◌, [], length};
ghost use Rattle.c_syntax.specs.Stands.{StandDecls, StandParts, Stands, StandsDecl};
ghost use Rattle.c_syntax.specs.Syntax.{Array, Decl, Decls, Expr, NoParts, Params, Parts};
ghost use Rattle.c_types_table.specs.Tables.{type_at};
ghost use Rattle.c_types_rules.specs.Expressions.{declarator_type, declared_type as declared_by_rules};
ghost use Rattle.c_types_expressions.specs.Found.{Finds, IsType, Stays};
ghost use Rattle.c_types_expressions.specs.Walks.{AreDecls, AreParts, IsDecl, IsExpr};

use crate::expressions::expression;
use crate::parameters::parameter_types;
use crate::sizes::{array_with_length, is_result, note_size};
use c_syntax::{DeclId, ExprId, Part, PartKind, Tree};
use c_types_environment::Environment;
use c_types_operators::TypeError;
use c_types_table::{Ty, TypeId};

/// The type that a declaration gives its name, or that a type name names.
///
/// `Rule` names the first rule that is broken in it, with the offset of the node that breaks it. Notes where the type, or one that it
/// consists of, is that of too large an object.
#[cycle(walk)]
pub fn declared_type(env: &mut Environment, tree: &Tree, id: DeclId) -> Result<TypeId, TypeError>
    requires { IsDecl tree.now id }
    ensures agrees { (d : Decl) → StandsDecl tree.now id d →
        Finds env.old env.new (IsType env.new.table) (declared_by_rules d env.old.env) result }
    ensures kept { Stays env.old env.new }
{
    let decl = tree.decl(id);
    let base = env.base_type(&decl.base)?;
    let ty = declarator(env, tree, decl.parts.as_slice(), base)?;
    note_size(env, ty);
    Ok(ty)
}

/// The type that a declarator makes of another, from the part farthest from the name to the nearest. Errors are as for
/// `declared_type`.
#[cycle(walk)]
pub fn declarator(
    env: &mut Environment,
    tree: &Tree,
    parts: &[Part],
    ty: TypeId,
) -> Result<TypeId, TypeError>
    requires parts { AreParts tree.now parts.now }
    requires ty { ty.0 < length env.old.table.types }
    ensures agrees { (ps : Parts) → StandParts tree.now parts.now ps →
        Finds env.old env.new (IsType env.new.table)
        (declarator_type ps env.old.env (type_at env.old.table.types ty)) result }
    ensures kept { Stays env.old env.new }
{
    let mut made = ty;
    for part in parts {
        made = part_type(env, tree, part, made)?;
    }
    Ok(made)
}

// The type that one part makes of another.
#[cycle(walk)]
fn part_type(
    env: &mut Environment,
    tree: &Tree,
    part: &Part,
    ty: TypeId,
) -> Result<TypeId, TypeError>
    requires part { AreParts tree.now (part.now ∷ []) }
    requires ty { ty.0 < length env.old.table.types }
    ensures agrees { (ps : Parts) → StandParts tree.now (part.now ∷ []) ps →
        Finds env.old env.new (IsType env.new.table)
        (declarator_type ps env.old.env (type_at env.old.table.types ty)) result }
    ensures kept { Stays env.old env.new }
{
    match &part.kind {
        PartKind::Pointer => {
            note_size(env, ty);
            Ok(env.add_type(Ty::Pointer(ty))?)
        }
        PartKind::Array(size) => array(env, tree, part.from, *size, ty),
        PartKind::Params(params) => function(env, tree, part.from, params.as_slice(), ty),
    }
}

// An array of elements of a type (C11 6.7.6.2).
#[cycle(walk)]
fn array(
    env: &mut Environment,
    tree: &Tree,
    from: u32,
    size: ExprId,
    element: TypeId,
) -> Result<TypeId, TypeError>
    requires size { IsExpr tree.now size }
    requires element { element.0 < length env.old.table.types }
    ensures agrees { (x : Expr) → Stands tree.now size x →
        Finds env.old env.new (IsType env.new.table)
        (declarator_type (Array from x NoParts) env.old.env (type_at env.old.table.types element)) result }
    ensures kept { Stays env.old env.new }
{
    env.complete(from, element)?;
    note_size(env, element);
    let size = expression(env, tree, size)?;
    array_with_length(env, from, element, size)
}

// A function that gives a value of a type, or nothing (C11 6.7.6.3).
#[cycle(walk)]
fn function(
    env: &mut Environment,
    tree: &Tree,
    from: u32,
    params: &[DeclId],
    ty: TypeId,
) -> Result<TypeId, TypeError>
    requires params { AreDecls tree.now params.now }
    requires ty { ty.0 < length env.old.table.types }
    ensures agrees { (ds : Decls) → StandDecls tree.now params.now ds →
        Finds env.old env.new (IsType env.new.table)
        (declarator_type (Params from ds NoParts) env.old.env (type_at env.old.table.types ty)) result }
    ensures kept { Stays env.old env.new }
{
    if !is_result(env, ty) {
        return Err(TypeError::Rule(from, 3));
    }
    let params = parameter_types(env, tree, params)?;
    Ok(env.add_type(Ty::Function { result: ty, params })?)
}

//! Locals and their first values (C11 6.7.9).

ghost use Rattle.std.specs.Prelude.{◌≡◌, ◌<◌, ◌∷◌, ◌++◌, [], length, IfOk, OnOk};
ghost use Rattle.std.specs.List.{All};
ghost use Rattle.c_syntax.specs.Stands.{StandDecls, Stands, StandsDecl, StandsRest};
ghost use Rattle.c_syntax.specs.Syntax as syntax;
ghost use Rattle.c_syntax.specs.Syntax.{Decl, Decls, Expr, Initial, Plain};
ghost use Rattle.c_types_table.specs.Tables.{IsBelow, type_at};
ghost use Rattle.c_types_rules.specs.Expressions.{declared_name};
ghost use Rattle.c_types_rules.specs.Statements.{first_value as first_value_by_rules, local as local_by_rules, locals_of as locals_by_rules};
ghost use Rattle.c_types_expressions.specs.Found.{Finds, IsType, Stays, StaysAround};
ghost use Rattle.c_types_expressions.specs.Specified.{IsSpecified};
ghost use Rattle.c_types_expressions.specs.Walks.{AreDecls, IsDecl, IsExpr};
ghost use Rattle.c_types_statements.specs.Pieces.{local_scope, local_type as local_type_by_rules};
ghost use Rattle.c_types_statements.specs.Typed.{AddsDeclared, IsLocal, StatementsStand, declared_in, listed};
ghost use Rattle.c_types_statements.specs.Walks.{IsRest};

use crate::scalars::is_scalar;
use crate::values::converted;
use c_lexer::Text;
use c_syntax::{DeclId, ExprId, Rest, Tree, Value};
use c_types_environment::{Environment, Meaning, append};
use c_types_expressions::{Specified, declared_type_after};
use c_types_operators::TypeError;
use c_types_program::Statement;
use c_types_table::TypeId;
use std::alloc::AllocError;

// The type of a local, which is that of a complete object (C11 6.7, 7).
fn local_type(
    env: &mut Environment,
    tree: &Tree,
    id: DeclId,
    known: &mut Option<Specified>,
) -> Result<TypeId, TypeError>
    requires id { IsDecl tree.now id }
    requires known { IsSpecified env.old tree.now known.old }
    ensures agrees { (d : Decl) → StandsDecl tree.now id d →
        Finds env.old env.new (IsType env.new.table) (local_type_by_rules env.old.env d) result }
    ensures known { OnOk result (IsSpecified env.new tree.now known.new) }
    ensures kept { Stays env.old env.new }
{
    let ty = declared_type_after(env, tree, id, known)?;
    env.complete(tree.decl(id).from, ty)?;
    Ok(ty)
}

// The spelling of a declared name; none where it has no name.
fn spelling(name: &Option<Text>) -> &[u8]
    ensures { result.now ≡ declared_name name.now }
{
    match name {
        Some(name) => name.as_slice(),
        None => &[],
    }
}

/// The place of a local after so many others. `AllocError` where no number is left for it.
pub fn place_after(before: usize) -> Result<u32, AllocError>
    ensures { IfOk result (λ place. place ≡ before) }
{
    u32::try_from(before).map_err(|_| AllocError)
}

// Declares a local, whose place is the number of those before it, and answers its place.
fn declare(
    env: &mut Environment,
    from: u32,
    name: &Option<Text>,
    before: usize,
    ty: TypeId,
) -> Result<u32, TypeError>
    requires { ty.0 < length env.old.table.types }
    ensures agrees { Finds env.old env.new (λ e place. (env.new.env ≡ e) ×
        (place ≡ before)) (local_scope env.old.env from name.now before (type_at env.old.table.types ty))
        result }
    ensures kept { StaysAround env.old env.new }
{
    let place = place_after(before)?;
    env.declare(from, spelling(name), Meaning::Local(place, ty))?;
    Ok(place)
}

// The first value of the local of this place, where an expression gives it; `from` is the offset of the local.
fn initial(
    env: &mut Environment,
    tree: &Tree,
    from: u32,
    place: u32,
    ty: TypeId,
    value: ExprId,
) -> Result<Statement, TypeError>
    requires value { IsExpr tree.now value }
    requires ty { ty.0 < length env.old.table.types }
    ensures agrees { (x : Expr) → Stands tree.now value x →
        Finds env.old env.new (λ xs s. StatementsStand env.new.table xs (s ∷ []))
        (first_value_by_rules env.old.env from place (type_at env.old.table.types ty) (Initial (Plain x)))
        result }
    ensures kept { Stays env.old env.new }
{
    if !is_scalar(env, ty) {
        return Err(TypeError::Rule(from, 17));
    }
    let value = converted(env, tree, ty, value)?;
    Ok(Statement::Initialise { place, ty, value })
}

// The first value of the local of this place, where it has one; `from` is the offset of the local.
fn first_value(
    env: &mut Environment,
    tree: &Tree,
    from: u32,
    place: u32,
    ty: TypeId,
    rest: &Rest,
) -> Result<Option<Statement>, TypeError>
    requires rest { IsRest tree.now rest.now }
    requires ty { ty.0 < length env.old.table.types }
    ensures agrees { (r : syntax.Rest) → StandsRest tree.now rest.now r →
        Finds env.old env.new (λ xs o. StatementsStand env.new.table xs (listed o))
        (first_value_by_rules env.old.env from place (type_at env.old.table.types ty) r) result }
    ensures kept { Stays env.old env.new }
{
    match rest {
        Rest::None => Ok(None),
        Rest::Value(Value::Plain(value)) => {
            let first = initial(env, tree, from, place, ty, *value)?;
            Ok(Some(first))
        }
        Rest::Value(Value::Braces { from: at, .. }) => Err(TypeError::Rule(*at, 17)),
        Rest::Body(_) => Err(TypeError::Rule(from, 21)),
        Rest::Members(_) => Err(TypeError::Rule(from, 3)),
    }
}

// Declares a local, and answers its first value, where it has one. Its name is declared before its value (C11 6.2.1, 7).
fn local(
    env: &mut Environment,
    locals: &mut Vec<TypeId>,
    tree: &Tree,
    id: DeclId,
    known: &mut Option<Specified>,
) -> Result<Option<Statement>, TypeError>
    requires id { IsDecl tree.now id }
    requires known { IsSpecified env.old tree.now known.old }
    requires locals { All (IsBelow (length env.old.table.types)) locals.old.items }
    ensures agrees { (d : Decl) → StandsDecl tree.now id d →
        Finds env.old env.new (IsLocal env.new locals.new.items)
        (local_by_rules d (declared_in env.old locals.old.items)) result }
    ensures known { OnOk result (IsSpecified env.new tree.now known.new) }
    ensures kept { StaysAround env.old env.new }
    ensures locals { All (IsBelow (length env.new.table.types)) locals.new.items }
{
    let decl = tree.decl(id);
    let ty = local_type(env, tree, id, known)?;
    let place = declare(env, decl.from, &decl.name, locals.len(), ty)?;
    let first = first_value(env, tree, decl.from, place, ty, &decl.rest)?;
    append(locals, ty)?;
    Ok(first)
}

// Puts a statement after others, where there is one.
fn push(statements: &mut Vec<Statement>, first: Option<Statement>) -> Result<(), AllocError>
    ensures { OnOk result (statements.new.items ≡ statements.old.items ++ listed first) }
{
    if let Some(first) = first {
        append(statements, first)?;
    }
    Ok(())
}

/// Declares locals, and puts their first values after the statements.
///
/// `Rule` names the first rule that is broken in them, with the offset of the node that breaks it; some of their names may then be
/// declared. Notes where an object is too large.
pub fn declare_locals(
    env: &mut Environment,
    locals: &mut Vec<TypeId>,
    tree: &Tree,
    ids: &[DeclId],
    statements: &mut Vec<Statement>,
) -> Result<(), TypeError>
    requires ids { AreDecls tree.now ids.now }
    requires locals { All (IsBelow (length env.old.table.types)) locals.old.items }
    ensures agrees { (ds : Decls) → StandDecls tree.now ids.now ds →
        Finds env.old env.new (AddsDeclared env.new locals.new.items statements.old.items
        statements.new.items) (locals_by_rules ds (declared_in env.old locals.old.items)) result }
    ensures kept { StaysAround env.old env.new }
    ensures locals { All (IsBelow (length env.new.table.types)) locals.new.items }
{
    let mut known = None;
    for id in ids {
        let first = local(env, locals, tree, *id, &mut known)?;
        push(statements, first)?;
    }
    Ok(())
}

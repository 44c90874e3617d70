//! The members of structs (C11 6.7.2.1).

ghost use Rattle.std.specs.Prelude.{◌≡◌, ◌∷◌, ◌++◌, ◌<◌, [], length, OnOk};
ghost use Rattle.c_syntax.specs.Stands.{StandDecls, StandsDecl};
ghost use Rattle.c_syntax.specs.Syntax as syntax;
ghost use Rattle.c_syntax.specs.Syntax.{Decls};
ghost use Rattle.c_types_table.specs.Tables.{type_at};
ghost use Rattle.c_types_rules.specs.Expressions.{declared_name};
ghost use Rattle.c_types_rules.specs.Sources.{member_of as member_by_rules, members_from as members_by_rules};
ghost use Rattle.c_types_nodes.specs.Tables.{Table};
ghost use Rattle.c_types_operators.specs.Answers.{Agrees};
ghost use Rattle.c_types_expressions.specs.Found.{Finds, Stays};
ghost use Rattle.c_types_expressions.specs.Specified.{IsSpecified};
ghost use Rattle.c_types_expressions.specs.Walks.{AreDecls, IsDecl};
ghost use Rattle.c_types.specs.Members.{AreBelow, members_in};
ghost use Rattle.c_types.specs.Pieces.{named_member};

use c_syntax::{Decl, DeclId, Tree};
use c_types_environment::{Environment, is_reserved};
use c_types_expressions::{Specified, declared_type_after};
use c_types_operators::TypeError;
use c_types_structs::Members;
use c_types_table::TypeId;

/// The name that a declaration declares, which is empty where it has none.
pub(crate) fn name_of(decl: &Decl) -> &[u8]
    ensures { result.now ≡ declared_name decl.now.name }
{
    match &decl.name {
        Some(name) => name.as_slice(),
        None => b"",
    }
}

// Puts one more after the others, whose types are in a table t. `from` is the offset of its declaration.
//
// `Rule` where its name begins with `r2_`, or is that of another.
fn add(members: &mut Members, from: u32, name: &[u8], ty: TypeId) -> Result<(), TypeError>
    ensures agrees { (t : Table) → Agrees (λ m _. members_in t members.new ≡ members_in t members.old ++
        m ∷ []) (named_member from (members_in t members.old) name.now (type_at t.types ty)) result }
    ensures below { OnOk result ((t : Table) → ty.0 < length t.types → AreBelow t members.old →
        AreBelow t members.new) }
{
    if is_reserved(name) {
        return Err(TypeError::Rule(from, 19));
    }
    if members.contains(name) {
        return Err(TypeError::Rule(from, 1));
    }
    members.add(name, ty)?;
    Ok(())
}

// One more member.
fn add_member(
    env: &mut Environment,
    tree: &Tree,
    members: &mut Members,
    id: DeclId,
    known: &mut Option<Specified>,
) -> Result<(), TypeError>
    requires id { IsDecl tree.now id }
    requires known { IsSpecified env.old tree.now known.old }
    requires below { AreBelow env.old.table members.old }
    ensures agrees { (d : syntax.Decl) → StandsDecl tree.now id d →
        Finds env.old env.new (λ m _. members_in env.new.table members.new ≡
        members_in env.old.table members.old ++
        m ∷ []) (member_by_rules env.old.env (members_in env.old.table members.old) d) result }
    ensures below { OnOk result (AreBelow env.new.table members.new) }
    ensures known { OnOk result (IsSpecified env.new tree.now known.new) }
    ensures kept { Stays env.old env.new }
{
    let decl = tree.decl(id);
    let ty = declared_type_after(env, tree, id, known)?;
    env.complete(decl.from, ty)?;
    add(members, decl.from, name_of(decl), ty)
}

/// The members that declarations declare, in order.
///
/// `Rule` names the first rule that is broken in them, with the offset of the node that breaks it. Notes where an array is too large.
pub(crate) fn members_of(
    env: &mut Environment,
    tree: &Tree,
    ids: &[DeclId],
) -> Result<Members, TypeError>
    requires ids { AreDecls tree.now ids.now }
    ensures agrees { (ds : Decls) → StandDecls tree.now ids.now ds →
        Finds env.old env.new (λ ms m. (members_in env.new.table m ≡ ms) ×
        AreBelow env.new.table m) (members_by_rules env.old.env [] ds) result }
    ensures kept { Stays env.old env.new }
{
    let mut members = Members::new(env.alloc());
    let mut known = None;
    for id in ids {
        add_member(env, tree, &mut members, *id, &mut known)?;
    }
    Ok(members)
}

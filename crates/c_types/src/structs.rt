//! Definitions of structs (C11 6.7.2.1).

ghost use Rattle.std.specs.Prelude.{◌≡◌, ℕ, List, length, IfOk, OnOk};
ghost use Rattle.c_syntax.specs.Stands.{StandDecls};
ghost use Rattle.c_syntax.specs.Syntax.{Decls};
ghost use Rattle.c_syntax.specs.declared.declaration.Base.TheVariants as bases;
ghost use Rattle.c_types_rules.specs.Environment.{place_in};
ghost use Rattle.c_types_rules.specs.Sources.{is_next as is_next_by_rules, struct_defined as struct_by_rules};
ghost use Rattle.std.specs.List.{All};
ghost use Rattle.c_types_table.specs.Tables.{types_of};
ghost use Rattle.c_types_rules.specs.Checked.{small};
ghost use Rattle.c_types_operators.specs.Answers.{IsNothing};
ghost use Rattle.c_types_environment.specs.Reading.{IsMemberBelow, members_by};
ghost use Rattle.c_types_environment.specs.States.{KeepsAll, is_small_struct, with_struct};
ghost use Rattle.c_types_expressions.specs.Found.{Finds};
ghost use Rattle.c_types_expressions.specs.Walks.{AreDecls};
ghost use Rattle.c_types.specs.States.{Follows, IsSound, program_of};
ghost use Rattle.c_types.specs.Pieces.{defined_struct};

use crate::declarations::Declarations;
use crate::members::members_of;
use c_syntax::{Base, DeclId, Tree};
use c_types_environment::{Environment, is_reserved};
use c_types_operators::TypeError;
use c_types_structs::Members;
use c_types_table::Ty;
use source_limits::MOST_MEMBERS;
use std::alloc::AllocError;

// Whether the words of a declaration name the struct that is defined next.
fn is_next(env: &mut Environment, base: &Base) -> Result<bool, AllocError>
    ensures next { (tag : List ℕ) → base.now ≡ bases.Struct tag →
        IfOk result (λ b. b ≡ is_next_by_rules (length env.old.env.structs)
        (place_in tag env.old.env.tags)) }
    ensures kept { KeepsAll env.old env.new }
{
    let next = env.extents().len();
    let ty = env.base_type(base)?;
    match env.table().types().get(ty) {
        Ty::Struct(number) => Ok(number.0 as usize == next),
        _ => Ok(false),
    }
}

// Defines the next struct, and notes where an object of it is too large.
fn define_noted(env: &mut Environment, members: Members) -> Result<(), TypeError>
    requires { All (IsMemberBelow (length env.old.table.types)) members }
    ensures agrees { Finds env.old env.new IsNothing
        (small (is_small_struct env.old.env (members_by (types_of env.old.table.types) members))) result }
    ensures env { OnOk result (env.new.env ≡ with_struct env.old.env
        (members_by (types_of env.old.table.types) members)) }
    ensures table { OnOk result (env.new.table ≡ env.old.table) }
{
    if env.define_struct(members)? {
        return Ok(());
    }
    env.note_large();
    Ok(())
}

impl Declarations {
    /// A struct with these members, which isn't defined before. `base` has its tag, and `from` is the offset of its definition.
    pub(crate) fn struct_defined(
        &mut self,
        tree: &Tree,
        from: u32,
        base: &Base,
        tag: &[u8],
        ids: &[DeclId],
    ) -> Result<(), TypeError>
        requires base { base.now ≡ bases.Struct tag.now }
        requires ids { AreDecls tree.now ids.now }
        requires sound { IsSound self.old }
        ensures { (ds : Decls) → StandDecls tree.now ids.now ds →
            Follows self.old self.new (struct_by_rules self.old.env.env.tags (program_of self.old) from
            tag.now ds) result }
    {
        if is_reserved(tag) {
            return Err(TypeError::Rule(from, 19));
        }
        if !is_next(&mut self.env, base)? {
            return Err(TypeError::Rule(from, 1));
        }
        self.define(tree, ids)
    }

    // The next struct, with these members.
    fn define(&mut self, tree: &Tree, ids: &[DeclId]) -> Result<(), TypeError>
        requires ids { AreDecls tree.now ids.now }
        requires sound { IsSound self.old }
        ensures { (ds : Decls) → StandDecls tree.now ids.now ds →
            Follows self.old self.new (defined_struct self.old.env.env.tags (program_of self.old) ds)
            result }
    {
        let members = members_of(&mut self.env, tree, ids)?;
        let few = members.len() <= MOST_MEMBERS;
        define_noted(&mut self.env, members)?;
        self.members_are_few = self.members_are_few && few;
        Ok(())
    }
}

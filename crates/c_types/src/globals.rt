//! Globals (C11 6.9.2).

ghost use Rattle.std.specs.Prelude.{◌≡◌, ◌<◌, ℕ, List, length, IfOk};
ghost use Rattle.std.specs.Option.{option_map};
ghost use Rattle.c_syntax.specs.Stands.{StandsDecl, StandsRest};
ghost use Rattle.c_syntax.specs.Syntax as syntax;
ghost use Rattle.c_syntax.specs.Syntax.{Decl};
ghost use Rattle.c_types_table.specs.Tables.{type_at};
ghost use Rattle.c_types_rules.specs.Checked.{heard};
ghost use Rattle.c_types_rules.specs.Sources.{Program, at_file, global_value as value_by_rules};
ghost use Rattle.c_types_nodes.specs.Lists.{AreNodes};
ghost use Rattle.c_types_program.specs.Declarations.{initial_in};
ghost use Rattle.c_types_expressions.specs.Found.{Finds, IsPart, Stays};
ghost use Rattle.c_types_expressions.specs.Walks.{IsDecl};
ghost use Rattle.c_types_statements.specs.Walks.{IsRest};
ghost use Rattle.c_types.specs.States.{Follows, IsSound, program_of};
ghost use Rattle.c_types.specs.Pieces.{global_of};

use crate::declarations::Declarations;
use crate::members::name_of;
use c_lexer::Text;
use c_syntax::{DeclId, Rest, Tree};
use c_types_environment::{Environment, Meaning, append};
use c_types_initializers::initial;
use c_types_nodes::NodeIds;
use c_types_operators::TypeError;
use c_types_program::{Global, Initial};
use c_types_table::TypeId;
use std::alloc::AllocError;

impl Declarations {
    /// A global of this type, whose name is declared before its value.
    pub(crate) fn global(&mut self, tree: &Tree, id: DeclId, ty: TypeId) -> Result<(), TypeError>
        requires id { IsDecl tree.now id }
        requires ty { ty.0 < length self.old.env.table.types }
        requires sound { IsSound self.old }
        ensures { (d : Decl) → StandsDecl tree.now id d →
            Follows self.old self.new (global_of self.old.env.env.tags (program_of self.old)
            (type_at self.old.env.table.types ty) d) result }
    {
        let decl = tree.decl(id);
        self.env.complete(decl.from, ty)?;
        let place = global_place(self.globals.len())?;
        self.env
            .declare(decl.from, name_of(decl), Meaning::Global(place, ty))?;
        let (value, unevaluated) = heard_value(&mut self.env, tree, decl.from, &decl.rest, ty)?;
        let name = Text::from_slice(self.env.alloc(), name_of(decl))?;
        let global = Global {
            name,
            ty,
            value,
            unevaluated,
        };
        append(&mut self.globals, global)?;
        Ok(())
    }
}

// The place of the global that comes after so many. `AllocError` where it doesn't fit.
fn global_place(before: usize) -> Result<u32, AllocError>
    ensures { IfOk result (λ place. place ≡ before) }
{
    u32::try_from(before).map_err(|_| AllocError)
}

// The value of a global, where it has one, and what stands in it unevaluated. `from` is the offset of the global.
fn heard_value(
    env: &mut Environment,
    tree: &Tree,
    from: u32,
    rest: &Rest,
    ty: TypeId,
) -> Result<(Option<Initial>, NodeIds), TypeError>
    requires rest { IsRest tree.now rest.now }
    requires ty { ty.0 < length env.old.table.types }
    ensures agrees { (tags : List (List ℕ)) (p : Program) (r : syntax.Rest) →
        at_file tags p ≡ env.old.env → StandsRest tree.now rest.now r →
        Finds env.old env.new (IsPart env.new (λ x v. option_map initial_in v ≡ x))
        (heard (value_by_rules tags p from (type_at env.old.table.types ty) r)) result }
    ensures kept { Stays env.old env.new }
    ensures inside { IfOk result (λ y. AreNodes env.new.table y.1) }
{
    let before = env.set_aside();
    let value = global_value(env, tree, from, rest, ty)?;
    Ok((value, env.part_unevaluated(before)))
}

// The value of a global, where it has one. `from` is the offset of the global.
fn global_value(
    env: &mut Environment,
    tree: &Tree,
    from: u32,
    rest: &Rest,
    ty: TypeId,
) -> Result<Option<Initial>, TypeError>
    requires rest { IsRest tree.now rest.now }
    requires ty { ty.0 < length env.old.table.types }
    ensures agrees { (tags : List (List ℕ)) (p : Program) (r : syntax.Rest) →
        at_file tags p ≡ env.old.env → StandsRest tree.now rest.now r →
        Finds env.old env.new (λ x v. option_map initial_in v ≡ x)
        (value_by_rules tags p from (type_at env.old.table.types ty) r) result }
    ensures kept { Stays env.old env.new }
{
    match rest {
        Rest::None => Ok(None),
        Rest::Value(value) => {
            let found = initial(env, tree, value, ty)?;
            Ok(Some(found))
        }
        Rest::Body(_) => Err(TypeError::Rule(from, 21)),
        Rest::Members(_) => Err(TypeError::Rule(from, 3)),
    }
}

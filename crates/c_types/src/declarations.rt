//! What a source declares, one declaration after another.

ghost use Rattle.std.specs.Prelude.{◌<◌, IfOk, OnOk, length};
ghost use Rattle.c_syntax.specs.Stands.{StandsDecl};
ghost use Rattle.c_syntax.specs.Syntax.{Decl};
ghost use Rattle.c_types_table.specs.Tables.{type_at};
ghost use Rattle.c_types_rules.specs.Sources.{declaration as declaration_by_rules};
ghost use Rattle.c_types_expressions.specs.Found.{Stays};
ghost use Rattle.c_types_expressions.specs.Walks.{IsDecl};
ghost use Rattle.c_types.specs.Known.{AreRead, IsKnown, ReadsAnnots};
ghost use Rattle.c_types.specs.States.{Declares, DeclaresNothing, Follows, IsSound, program_of};
ghost use Rattle.c_types.specs.Pieces.{named as named_by_rules, typed as typed_by_rules};

use c_syntax::{Base, DeclId, Rest, Tree};
use c_types_environment::Environment;
use c_types_expressions::{Specified, annotation_types, declared_type_after};
use c_types_operators::TypeError;
use c_types_program::{Function, Global};
use c_types_structs::Tags;
use c_types_table::{Ty, TypeId};
use std::alloc::AllocError;

/// What a source declares so far: what names mean, whether no struct has too many members, and functions and globals in order.
#[derive(Drop)]
pub(crate) struct Declarations {
    pub(crate) env: Environment,
    pub(crate) members_are_few: bool,
    pub(crate) functions: Vec<Function>,
    pub(crate) globals: Vec<Global>,
}

// That the annotations of a declaration keep the rules of types. They aren't read where they are those of one of which this is known.
fn annotations(
    env: &mut Environment,
    tree: &Tree,
    id: DeclId,
    known: Option<Specified>,
) -> Result<(), TypeError>
    requires id { IsDecl tree.now id }
    requires known { IsKnown tree.now env.old known }
    ensures agrees { ReadsAnnots tree.now id env.old env.new result }
    ensures read { OnOk result (AreRead tree.now env.new id) }
    ensures kept { Stays env.old env.new }
{
    if let Some(known) = known {
        if tree.share_specifiers(known.decl, id) {
            return Ok(());
        }
    }
    annotation_types(env, tree, tree.decl(id).annots.as_slice())
}

impl Declarations {
    /// Nothing is declared. `tags` has those of all structs that the source defines. `AllocError` where there is no memory.
    pub(crate) fn new(alloc: std::alloc::Global, tags: Tags) -> Result<Declarations, AllocError>
        ensures { IfOk result (DeclaresNothing tags) }
    {
        Ok(Declarations {
            env: Environment::new(alloc, tags)?,
            members_are_few: true,
            functions: Vec::new(alloc),
            globals: Vec::new(alloc),
        })
    }

    /// One declaration more. What is `known` of the specifiers of the one before is not looked up again where both share them.
    ///
    /// `Rule` names the first rule that is broken in it, with the offset of the node that breaks it. Notes where an object is too
    /// large.
    pub(crate) fn declaration(
        &mut self,
        tree: &Tree,
        id: DeclId,
        known: &mut Option<Specified>,
    ) -> Result<(), TypeError>
        requires id { IsDecl tree.now id }
        requires known { IsKnown tree.now self.old.env known.old }
        requires sound { IsSound self.old }
        ensures agrees { (d : Decl) → StandsDecl tree.now id d →
            Declares self.old self.new (declaration_by_rules self.old.env.env.tags (program_of self.old) d)
            result }
        ensures known { OnOk result (IsKnown tree.now self.new.env known.new) }
    {
        let decl = tree.decl(id);
        match (&decl.base, &decl.rest) {
            (Base::Struct(tag), Rest::Members(members)) => {
                *known = None;
                self.struct_defined(
                    tree,
                    decl.from,
                    &decl.base,
                    tag.as_slice(),
                    members.as_slice(),
                )
            }
            _ => self.named(tree, id, known),
        }
    }

    // A function or a global.
    fn named(
        &mut self,
        tree: &Tree,
        id: DeclId,
        known: &mut Option<Specified>,
    ) -> Result<(), TypeError>
        requires id { IsDecl tree.now id }
        requires known { IsKnown tree.now self.old.env known.old }
        requires sound { IsSound self.old }
        ensures agrees { (d : Decl) → StandsDecl tree.now id d →
            Declares self.old self.new (named_by_rules self.old.env.env.tags (program_of self.old) d) result }
        ensures known { OnOk result (IsKnown tree.now self.new.env known.new) }
    {
        annotations(&mut self.env, tree, id, *known)?;
        let ty = declared_type_after(&mut self.env, tree, id, known)?;
        self.typed(tree, id, ty)
    }

    // A function or a global of this type.
    fn typed(&mut self, tree: &Tree, id: DeclId, ty: TypeId) -> Result<(), TypeError>
        requires id { IsDecl tree.now id }
        requires ty { ty.0 < length self.old.env.table.types }
        requires sound { IsSound self.old }
        ensures { (d : Decl) → StandsDecl tree.now id d →
            Follows self.old self.new (typed_by_rules self.old.env.env.tags (program_of self.old)
            (type_at self.old.env.table.types ty) d) result }
    {
        match self.env.table().types().get(ty) {
            Ty::Function { .. } => self.function(tree, id, ty),
            _ => self.global(tree, id, ty),
        }
    }
}

// Actions that make declarations.

ghost use Rattle.std.specs.Prelude.{◌≡◌, length, IfOk, IfErr, OnOk};
ghost use Rattle.c_parser_tree.specs.IsMade.{Makes};
ghost use Rattle.c_parser_tree.specs.Built.{add_part, declare, with_struct};
ghost use Rattle.c_parser_tree.specs.Made.{made_declr, made_decl, made_list};
ghost use Rattle.c_parser_tree.specs.Seen.{nodes_seen, stack_seen};

use crate::builder::{BuildError, Builder, empty, with_last};
use crate::piece::{Declarator, Shared, Tag};
use c_parser_moves::Action;
use c_syntax::{Base, Decl, DeclId, Part, PartKind, Rest, Seq, SharedSeq};

impl Builder {
    /// Gives the declarator on top one more part.
    fn add_part(&mut self, from: u32, kind: PartKind) -> Result<(), BuildError>
        ensures { Makes result self.old self.new (λ N. add_part N from kind) }
    {
        let declarator = self.pop_declarator()?;
        let parts = with_last(declarator.parts, Part { from, kind })?;
        self.put_declarator(Declarator {
            parts,
            name: declarator.name,
            from: declarator.from,
        })
    }

    /// Declares the declarator on top, with what the names of its declaration share.
    fn declare(&mut self, rest: Rest) -> Result<(), BuildError>
        ensures { Makes result self.old self.new (λ N. declare N rest) }
    {
        let declarator = self.pop_declarator()?;
        let shared = self.pop_shared()?;
        self.put_decl(declarator, shared, rest)
    }

    /// A new definition of a struct.
    fn add_struct(&mut self, tag: Tag, members: Seq<DeclId>) -> Result<DeclId, BuildError>
        ensures number { IfOk result (λ i. i ≡ record { 0 = length (nodes_seen self.old).decls }) }
        ensures nodes { OnOk result (nodes_seen self.new ≡ with_struct (nodes_seen self.old) tag members) }
        ensures stack { OnOk result (stack_seen self.new ≡ stack_seen self.old) }
        ensures memory { IfErr result (λ e. e ≡ BuildError.Memory) }
    {
        let parts = empty(self.alloc);
        self.new_decl(Decl {
            from: tag.from,
            annots: SharedSeq::empty(),
            base: Base::Struct(tag.name),
            parts,
            name: None,
            rest: Rest::Members(members),
        })
    }

    /// Makes a declarator, or what the next kinds of action make.
    #[inline(never)]
    #[tactic(auto, unfolding(crate::specs::Made::made_declr))]
    pub fn make_declarator(&mut self, action: Action) -> Result<(), BuildError>
        ensures { Makes result self.old self.new (made_declr action) }
    {
        match action {
            Action::Named(from, name) => self.put_declarator(Declarator {
                parts: empty(self.alloc),
                name: Some(name),
                from,
            }),
            Action::Nameless(from) => self.put_declarator(Declarator {
                parts: empty(self.alloc),
                name: None,
                from,
            }),
            Action::Pointer(from) => self.add_part(from, PartKind::Pointer),
            Action::Array(from) => {
                let length = self.pop_expr()?;
                self.add_part(from, PartKind::Array(length))
            }
            Action::Params(from) => {
                let parameters = self.pop_decls()?;
                self.add_part(from, PartKind::Params(parameters))
            }
            other => self.make_decl(other),
        }
    }

    /// Makes a declaration, or what its names share, or what the next kinds of action make.
    #[tactic(auto, unfolding(crate::specs::Made::made_decl))]
    pub fn make_decl(&mut self, action: Action) -> Result<(), BuildError>
        ensures { Makes result self.old self.new (made_decl action) }
    {
        match action {
            Action::Specs(base) => {
                let annots = SharedSeq::from_vec(self.pop_annots()?.into_vec())?;
                self.put_shared(Shared::Words { annots, base })
            }
            Action::Declare => self.declare(Rest::None),
            Action::DeclareValue => {
                let value = self.pop_value()?;
                self.declare(Rest::Value(value))
            }
            Action::DeclareBody => {
                let body = self.pop_stmt()?;
                self.declare(Rest::Body(body))
            }
            Action::EndSpecs | Action::DropSpecs => {
                let _ = self.pop_shared()?;
                Ok(())
            }
            other => self.make_list(other),
        }
    }

    /// Makes a list of declarations, or the definition of a struct, or what the next kinds of action make.
    #[tactic(auto, unfolding(crate::specs::Made::made_list))]
    pub fn make_list(&mut self, action: Action) -> Result<(), BuildError>
        ensures { Makes result self.old self.new (made_list action) }
    {
        match action {
            Action::NoDecls => self.put_decls(empty(self.alloc)),
            Action::AddName => {
                let last = self.pop_decl()?;
                self.add_decl(last)
            }
            Action::Tag(from, name) => self.put_tag(Tag { from, name }),
            Action::Struct => {
                let members = self.pop_decls()?;
                let tag = self.pop_tag()?;
                let last = self.add_struct(tag, members)?;
                self.add_decl(last)
            }
            other => self.make_annot(other),
        }
    }
}

// The newest pieces, taken off.

ghost use Rattle.c_parser_tree.specs.IsMade.{IsTaken};
ghost use Rattle.c_parser_tree.specs.Seen.{nodes_seen, stack_seen};
ghost use Rattle.c_parser_tree.specs.Takes.{expr_in, exprs_in, maybe_in, declarator_in, shared_in, decl_in, decls_in, annots_in, annot_in, item_in, atom_in, value_in, values_in, entries_in, stmt_in, first_in, tag_in, two_exprs_in, tested_in};
ghost use Rattle.std.specs.Prelude.{◌≡◌};

use crate::builder::{BuildError, Builder, take_newest};
use crate::piece::{Declarator, Shared, Tag};
use c_syntax::{Annot, Atom, DeclId, Entry, ExprId, First, Item, Seq, StmtId, Value};

impl Builder {
    pub fn pop_expr(&mut self) -> Result<ExprId, BuildError>
        ensures taken { IsTaken result self.new (expr_in (stack_seen self.old)) }
        ensures nodes { nodes_seen self.new ≡ nodes_seen self.old }
    {
        take_newest(&mut self.pieces.exprs)
    }

    pub fn pop_exprs(&mut self) -> Result<Seq<ExprId>, BuildError>
        ensures taken { IsTaken result self.new (exprs_in (stack_seen self.old)) }
        ensures nodes { nodes_seen self.new ≡ nodes_seen self.old }
    {
        take_newest(&mut self.pieces.expr_lists)
    }

    pub fn pop_maybe(&mut self) -> Result<Option<ExprId>, BuildError>
        ensures taken { IsTaken result self.new (maybe_in (stack_seen self.old)) }
        ensures nodes { nodes_seen self.new ≡ nodes_seen self.old }
    {
        take_newest(&mut self.pieces.maybes)
    }

    pub fn pop_declarator(&mut self) -> Result<Declarator, BuildError>
        ensures taken { IsTaken result self.new (declarator_in (stack_seen self.old)) }
        ensures nodes { nodes_seen self.new ≡ nodes_seen self.old }
    {
        take_newest(&mut self.pieces.declarators)
    }

    pub fn pop_shared(&mut self) -> Result<Shared, BuildError>
        ensures taken { IsTaken result self.new (shared_in (stack_seen self.old)) }
        ensures nodes { nodes_seen self.new ≡ nodes_seen self.old }
    {
        take_newest(&mut self.pieces.shared)
    }

    pub fn pop_decl(&mut self) -> Result<DeclId, BuildError>
        ensures taken { IsTaken result self.new (decl_in (stack_seen self.old)) }
        ensures nodes { nodes_seen self.new ≡ nodes_seen self.old }
    {
        take_newest(&mut self.pieces.decls)
    }

    pub fn pop_decls(&mut self) -> Result<Seq<DeclId>, BuildError>
        ensures taken { IsTaken result self.new (decls_in (stack_seen self.old)) }
        ensures nodes { nodes_seen self.new ≡ nodes_seen self.old }
    {
        take_newest(&mut self.pieces.decl_lists)
    }

    pub fn pop_annots(&mut self) -> Result<Seq<Annot>, BuildError>
        ensures taken { IsTaken result self.new (annots_in (stack_seen self.old)) }
        ensures nodes { nodes_seen self.new ≡ nodes_seen self.old }
    {
        take_newest(&mut self.pieces.annot_lists)
    }

    pub fn pop_annot(&mut self) -> Result<Annot, BuildError>
        ensures taken { IsTaken result self.new (annot_in (stack_seen self.old)) }
        ensures nodes { nodes_seen self.new ≡ nodes_seen self.old }
    {
        take_newest(&mut self.pieces.annots)
    }

    pub fn pop_item(&mut self) -> Result<Item, BuildError>
        ensures taken { IsTaken result self.new (item_in (stack_seen self.old)) }
        ensures nodes { nodes_seen self.new ≡ nodes_seen self.old }
    {
        take_newest(&mut self.pieces.items)
    }

    pub fn pop_atom(&mut self) -> Result<Atom, BuildError>
        ensures taken { IsTaken result self.new (atom_in (stack_seen self.old)) }
        ensures nodes { nodes_seen self.new ≡ nodes_seen self.old }
    {
        take_newest(&mut self.pieces.atoms)
    }

    pub fn pop_value(&mut self) -> Result<Value, BuildError>
        ensures taken { IsTaken result self.new (value_in (stack_seen self.old)) }
        ensures nodes { nodes_seen self.new ≡ nodes_seen self.old }
    {
        take_newest(&mut self.pieces.values)
    }

    pub fn pop_values(&mut self) -> Result<Seq<Value>, BuildError>
        ensures taken { IsTaken result self.new (values_in (stack_seen self.old)) }
        ensures nodes { nodes_seen self.new ≡ nodes_seen self.old }
    {
        take_newest(&mut self.pieces.value_lists)
    }

    pub fn pop_entries(&mut self) -> Result<Seq<Entry>, BuildError>
        ensures taken { IsTaken result self.new (entries_in (stack_seen self.old)) }
        ensures nodes { nodes_seen self.new ≡ nodes_seen self.old }
    {
        take_newest(&mut self.pieces.entry_lists)
    }

    pub fn pop_stmt(&mut self) -> Result<StmtId, BuildError>
        ensures taken { IsTaken result self.new (stmt_in (stack_seen self.old)) }
        ensures nodes { nodes_seen self.new ≡ nodes_seen self.old }
    {
        take_newest(&mut self.pieces.stmts)
    }

    pub fn pop_first(&mut self) -> Result<First, BuildError>
        ensures taken { IsTaken result self.new (first_in (stack_seen self.old)) }
        ensures nodes { nodes_seen self.new ≡ nodes_seen self.old }
    {
        take_newest(&mut self.pieces.firsts)
    }

    pub fn pop_tag(&mut self) -> Result<Tag, BuildError>
        ensures taken { IsTaken result self.new (tag_in (stack_seen self.old)) }
        ensures nodes { nodes_seen self.new ≡ nodes_seen self.old }
    {
        take_newest(&mut self.pieces.tags)
    }

    /// The two newest expressions, the older first.
    pub fn pop_two_exprs(&mut self) -> Result<(ExprId, ExprId), BuildError>
        ensures taken { IsTaken result self.new (two_exprs_in (stack_seen self.old)) }
        ensures nodes { nodes_seen self.new ≡ nodes_seen self.old }
    {
        let right = self.pop_expr()?;
        let left = self.pop_expr()?;
        Ok((left, right))
    }

    /// A statement, after the test before it.
    pub fn pop_tested(&mut self) -> Result<(ExprId, StmtId), BuildError>
        ensures taken { IsTaken result self.new (tested_in (stack_seen self.old)) }
        ensures nodes { nodes_seen self.new ≡ nodes_seen self.old }
    {
        let body = self.pop_stmt()?;
        let test = self.pop_expr()?;
        Ok((test, body))
    }
}

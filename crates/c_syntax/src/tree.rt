// Trees.

ghost use Rattle.std.specs.Prelude.{◌≡◌, ◌<◌, length, Some, slice_get, true};
ghost use Rattle.c_syntax.specs.Alike.{ShareSpecifiers};
ghost use Rattle.c_syntax.specs.Nodes.{Nodes, decl_at, stmt_at, expr_at};

use crate::decl_table::DeclTable;
use crate::declaration::Decl;
use crate::expression::Expr;
use crate::id::{DeclId, ExprId, StmtId};
use crate::statement::Stmt;
use std::marker::Model;

/// The nodes of a source, which name each other by number.
#[derive(Drop)]
pub struct Tree {
    decls: DeclTable,
    stmts: Vec<Stmt>,
    exprs: Vec<Expr>,
    tops: Vec<DeclId>,
}

impl Model for Tree {
    ghost use Rattle.c_syntax.specs.Nodes.{Nodes};
    ghost use Rattle.c_syntax.specs.contracts.declaration.Value as value;
    ghost use Rattle.std.specs.Coded.{codes};

    ghost Value = { Nodes };

    ghost view = { λ t. record {
      decls = t.decls;
      stmts = t.stmts.items;
      exprs = t.exprs.items;
      tops = t.tops.items;
    } };

    ghost coded = { Prim.hlevel (codes, value.the_row.coded) };
}

impl Tree {
    /// The tree of these nodes, whose declarations outside any other are `tops`.
    pub fn new(decls: DeclTable, stmts: Vec<Stmt>, exprs: Vec<Expr>, tops: Vec<DeclId>) -> Tree
        ensures decls { result.decls ≡ decls }
        ensures stmts { result.stmts ≡ stmts.items }
        ensures exprs { result.exprs ≡ exprs.items }
        ensures tops { result.tops ≡ tops.items }
    {
        Tree {
            decls,
            stmts,
            exprs,
            tops,
        }
    }

    /// The declaration of this number.
    pub fn decl(&self, id: DeclId) -> &Decl
        requires inside { id.0 < length self.now.decls }
        ensures node { decl_at self.now id ≡ Some result.now }
    {
        self.decls.get(id)
    }

    /// Whether the declarations of these numbers are known to share their annotations, and the type that stands before their
    /// declarators. It takes no time to look through these. Names of one declaration are known to.
    pub fn share_specifiers(&self, a: DeclId, b: DeclId) -> bool
        requires one { a.0 < length self.now.decls }
        requires other { b.0 < length self.now.decls }
        ensures { result ≡ true → ShareSpecifiers self.now.decls a b }
    {
        self.decls.share_specifiers(a, b)
    }

    /// The statement of this number.
    pub fn stmt(&self, id: StmtId) -> &Stmt
        requires inside { id.0 < length self.now.stmts }
        ensures node { stmt_at self.now id ≡ Some result.now }
    {
        &self.stmts[id.0 as usize]
    }

    /// The expression of this number.
    pub fn expr(&self, id: ExprId) -> &Expr
        requires inside { id.0 < length self.now.exprs }
        ensures node { expr_at self.now id ≡ Some result.now }
    {
        &self.exprs[id.0 as usize]
    }

    /// The declarations of the source itself, in its order.
    pub fn top(&self) -> &[DeclId]
        ensures tops { result.now ≡ self.now.tops }
    {
        self.tops.as_slice()
    }
}

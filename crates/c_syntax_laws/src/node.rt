//! Nodes of a tree.

use c_syntax::{DeclId, ExprId, StmtId};

/// A node of a tree, by its number.
#[derive(Clone, Copy)]
pub enum Node {
    Expr(ExprId),
    Decl(DeclId),
    Stmt(StmtId),
}

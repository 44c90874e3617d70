// Statements.

use crate::id::{DeclId, ExprId, StmtId};
use crate::seq::Seq;

/// What stands in a block: the names of a declaration, or a statement.
#[derive(Drop)]
pub enum Entry {
    Local(Seq<DeclId>),
    Stmt(StmtId),
}

/// The first part of a `for`.
#[derive(Drop)]
pub enum First {
    None,
    Local(Seq<DeclId>),
    Expr(ExprId),
}

/// What a statement is (C11 6.8).
#[derive(Drop)]
pub enum StmtKind {
    Block(Seq<Entry>),
    Expr(Option<ExprId>),
    If(ExprId, StmtId, Option<StmtId>),
    While(ExprId, StmtId),
    Do(StmtId, ExprId),
    For(First, Option<ExprId>, Option<ExprId>, StmtId),
    Break,
    Continue,
    Return(Option<ExprId>),
}

/// A statement, and the offset of its first token.
#[derive(Drop)]
pub struct Stmt {
    pub from: u32,
    pub kind: StmtKind,
}

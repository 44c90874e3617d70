// Expressions.

use crate::id::{DeclId, ExprId};
use crate::seq::Seq;
use c_lexer::{Sign, Suffix, Text};

/// What an expression is (C11 6.5). Brackets that group leave no node.
#[derive(Drop)]
pub enum ExprKind {
    Name(Text),
    Number {
        value: u64,
        suffix: Suffix,
        decimal: bool,
    },
    Char(i8),
    Text(Text),
    /// An operator between two operands that is no assignment, the comma among them.
    Binary(Sign, ExprId, ExprId),
    Assign(Sign, ExprId, ExprId),
    Cond(ExprId, ExprId, ExprId),
    Prefix(Sign, ExprId),
    Postfix(Sign, ExprId),
    SizeofExpr(ExprId),
    SizeofType(DeclId),
    Cast(DeclId, ExprId),
    Index(ExprId, ExprId),
    Call(ExprId, Seq<ExprId>),
    Member(ExprId, Text),
    Arrow(ExprId, Text),
}

/// An expression, and the offset of its first token.
#[derive(Drop)]
pub struct Expr {
    pub from: u32,
    pub kind: ExprKind,
}

//! The syntax of the C profile: the nodes of a source and the grammar that they are the tree of.
#![tactic(auto)]

mod decl_table;
mod declaration;
mod expression;
mod id;
mod law;
mod seq;
mod shared;
mod specifier;
mod statement;
mod tree;

pub use decl_table::DeclTable;
pub use declaration::{Annot, Atom, Base, Decl, Item, Part, PartKind, Rest, Value};
pub use expression::{Expr, ExprKind};
pub use id::{DeclId, ExprId, StmtId};
pub use law::{empty_source, one_source};
pub use seq::Seq;
pub use shared::SharedSeq;
pub use specifier::{Core, Signedness, Specifiers};
pub use statement::{Entry, First, Stmt, StmtKind};
pub use tree::Tree;

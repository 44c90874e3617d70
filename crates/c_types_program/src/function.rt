//! Functions.

use crate::statement::Statement;
use c_lexer::Text;
use c_types_nodes::NodeIds;
use c_types_table::{TypeId, TypeIds};

/// What a function does: the offset of its outermost block, the types of its parameters and then of all its locals, in the
/// order of the source, its statements, and what stands unevaluated in its parameters and in its block: operands of `sizeof`, and
/// lengths of arrays, in the order of the source, each after those within it (C11 6.5.3.4, 2).
#[derive(Drop)]
pub struct Body {
    pub from: u32,
    pub locals: TypeIds,
    pub statements: Statement,
    pub in_params: NodeIds,
    pub unevaluated: NodeIds,
}

/// A function, and what it does where the source says it (C11 6.9.1).
#[derive(Drop)]
pub struct Function {
    pub name: Text,
    pub ty: TypeId,
    pub body: Option<Body>,
}

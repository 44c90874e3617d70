//! What a typed source is made of.

use c_syntax::{Seq, Tree};
use c_types_environment::Environment;
use c_types_program::{Function, Global, TextLiteral};

/// The parts of a typed source, where nothing is known of them: a tree, what is declared at its end, functions by number less 16,
/// globals by place, and strings in order, each once.
#[derive(Drop)]
pub struct Parts {
    pub tree: Tree,
    pub env: Environment,
    pub functions: Seq<Function>,
    pub globals: Seq<Global>,
    pub texts: Seq<TextLiteral>,
}

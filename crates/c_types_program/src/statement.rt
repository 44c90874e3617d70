//! Statements.

use c_types_nodes::NodeId;
use c_types_table::TypeId;

/// What a statement does (C11 6.8), with its values by their numbers in a table.
#[derive(Drop)]
pub enum Statement {
    Block(Vec<Statement>),
    /// A value that isn't used.
    Evaluate(NodeId),
    /// The first value of the local of this place.
    Initialise {
        place: u32,
        ty: TypeId,
        value: NodeId,
    },
    If(NodeId, Box<Statement>),
    IfElse(NodeId, Box<Statement>, Box<Statement>),
    /// Loops, whose first word stands at this offset.
    While {
        from: u32,
        condition: NodeId,
        body: Box<Statement>,
    },
    Do {
        from: u32,
        body: Box<Statement>,
        condition: NodeId,
    },
    For {
        from: u32,
        first: Vec<Statement>,
        condition: Option<NodeId>,
        last: Option<NodeId>,
        body: Box<Statement>,
    },
    Break,
    Continue,
    /// `return` at this offset.
    Return {
        from: u32,
        value: Option<NodeId>,
    },
}

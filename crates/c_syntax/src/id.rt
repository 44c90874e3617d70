// Names of nodes.

/// Names a declaration of a tree.
#[derive(Clone, Copy)]
pub struct DeclId(pub u32);

/// Names a statement of a tree.
#[derive(Clone, Copy)]
pub struct StmtId(pub u32);

/// Names an expression of a tree.
#[derive(Clone, Copy)]
pub struct ExprId(pub u32);

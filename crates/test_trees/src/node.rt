// The nodes of the parts of a source. What such a node names are parts of the source too.

ghost use Rattle.test_trees.specs.Parts.{IsExpr, IsStmt, IsDecl, ExprFits};
ghost use Rattle.test_trees.specs.Parts.{StmtFits, AreAnnots, AreParts, RestFits};

use c_syntax::{Decl, DeclId, ExprId, ExprKind, Part, Rest, StmtId, StmtKind, Tree};

/// What the expression of this number is.
pub fn expr_kind(tree: &Tree, id: ExprId) -> &ExprKind
    requires { IsExpr tree.now id }
    ensures { ExprFits tree.now result.now }
{
    &tree.expr(id).kind
}

/// What the statement of this number is.
pub fn stmt_kind(tree: &Tree, id: StmtId) -> &StmtKind
    requires { IsStmt tree.now id }
    ensures { StmtFits tree.now result.now }
{
    &tree.stmt(id).kind
}

/// The declaration of this number.
pub fn decl_node(tree: &Tree, id: DeclId) -> &Decl
    requires { IsDecl tree.now id }
    ensures parts { AreParts tree.now result.now.parts }
    ensures annots { AreAnnots tree.now result.now.annots }
{
    tree.decl(id)
}

/// What follows the declarator of this number.
pub fn decl_rest(tree: &Tree, id: DeclId) -> &Rest
    requires { IsDecl tree.now id }
    ensures { RestFits tree.now result.now }
{
    &tree.decl(id).rest
}

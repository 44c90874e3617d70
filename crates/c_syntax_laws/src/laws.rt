//! What holds of the trees of all sources.

ghost use Rattle.std.specs.Prelude.{List, ℕ};
ghost use Rattle.c_lexer.specs.declared.token.Token.{Token};
ghost use Rattle.c_lexer.specs.Lexing.{IsTokens};
ghost use Rattle.c_syntax.specs.declared.id.DeclId.{DeclId};
ghost use Rattle.c_syntax.specs.declared.id.ExprId.{ExprId};
ghost use Rattle.c_syntax.specs.declared.id.StmtId.{StmtId};
ghost use Rattle.c_syntax.specs.Nodes.{Nodes};
ghost use Rattle.c_syntax.specs.Sources.{Spells};
ghost use Rattle.c_syntax.specs.Stands.{Stands, StandsDecl, StandsStmt};
ghost use Rattle.c_syntax.specs.Syntax.{Decl, Decls, Expr, Stmt};
ghost use Rattle.c_syntax_laws.specs.declared.node.Node.TheVariants as nodes;
ghost use Rattle.c_syntax_laws.specs.Numbers.{FitsDecls};
ghost use Rattle.c_syntax_laws.specs.Walks.{Falls};

/// A law: where a number stands for a part of a source, the nodes that its node names are lower than it.
pub fn heights_fall()
    ensures expressions { (N : Nodes) (i : ExprId) (x : Expr) → Stands N i x → Falls N (nodes.Expr i) }
    ensures declarations { (N : Nodes) (i : DeclId) (d : Decl) → StandsDecl N i d → Falls N (nodes.Decl i) }
    ensures statements { (N : Nodes) (i : StmtId) (s : Stmt) → StandsStmt N i s → Falls N (nodes.Stmt i) }
{}

/// A law: a type can represent each number that stands in a source.
pub fn numbers_fit()
    ensures { (source : List ℕ) (ts : List Token) (ds : Decls) → IsTokens source ts → Spells ts ds →
        FitsDecls ds }
{}

//! Declarations of a tree.

ghost use Rattle.std.specs.Prelude.{◌≡◌};
ghost use Rattle.c_syntax.specs.Stands.{StandsDecl};
ghost use Rattle.c_syntax.specs.Syntax.{Decl as Declared};
ghost use Rattle.annot_reader_words.specs.Shown.{IsDecl, IsShown, Shows};

use c_syntax::{Decl, DeclId, Tree};

/// The declaration of this number.
pub fn decl_node(tree: &Tree, id: DeclId) -> &Decl
    requires { IsDecl tree.now id }
    ensures shown { IsShown tree.now result.now }
    ensures shows { (d : Declared) → StandsDecl tree.now id d → Shows tree.now result.now d }
{
    tree.decl(id)
}

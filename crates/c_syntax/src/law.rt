// What holds of every tree and source.

ghost use Rattle.std.specs.Prelude.{◌≡◌, ℕ, []};
ghost use Rattle.c_syntax.specs.Depth.{tall_decls, LieDecls};
ghost use Rattle.c_syntax.specs.Nodes.{Nodes};
ghost use Rattle.c_syntax.specs.Sources.{Spells};
ghost use Rattle.c_syntax.specs.Stands.{Holds};
ghost use Rattle.c_syntax.specs.Syntax.{Decls, NoDecls};

/// A tree holds one source at most.
pub fn one_source()
    ensures { (N : Nodes) (x y : Decls) → Holds N x → Holds N y → x ≡ y }
{}

/// No tokens are the source without declarations, which has no node.
pub fn empty_source()
    ensures spelled { Spells [] NoDecls }
    ensures flat { tall_decls NoDecls ≡ 0 }
    ensures no_node { (k o : ℕ) → LieDecls NoDecls k o → ⊥ }
{}

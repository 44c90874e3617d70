//! Names of arrays.

ghost use Rattle.std.specs.Prelude.{◌≡◌, codes, [], ◌∷◌};
ghost use Rattle.c_lexer.specs.declared.token.Sign.TheVariants as signs;
ghost use Rattle.c_syntax.specs.Syntax.{Array, Index, NoParts, NoRest, Pointer, Prefix};
ghost use Rattle.c_types_examples.specs.Small.{declaring, int_base, main_giving, name, num, two};
ghost use Rattle.c_types_examples.specs.Heard.{size_of};
ghost use Rattle.cut_graph_rules.specs.declared.mention.Mention.TheVariants.{Global, Written};
ghost use Rattle.cut_graph_examples.specs.Sources.{by_functions};

/// The name of an array counts as written where it stands alone: neither subscripted, nor below `sizeof`.
pub fn arrays_that_stand_alone_are_written()
    // int g[2]; int main(void) { return *g; }
    ensures alone { by_functions (declaring int_base (Array 12 (num 2) NoParts) (codes "g") NoRest ∷
        main_giving (Prefix 30 signs.Star (name (codes "g"))) ∷ []) ≡ (Written 0 ∷ Global 0 ∷ []) ∷ [] }
    // int g[2]; int main(void) { return g[1]; }
    ensures subscripted { by_functions (declaring int_base (Array 12 (num 2) NoParts) (codes "g") NoRest ∷
        main_giving (Index 30 (name (codes "g")) (num 1)) ∷ []) ≡ (Global 0 ∷ []) ∷ [] }
    // int g[2][2]; int *p; int main(void) { return p == g[0]; }
    ensures part { by_functions (declaring int_base (Array 12 (num 2) (Array 13 (num 2) NoParts)) (codes "g")
        NoRest ∷ declaring int_base (Pointer 12 NoParts) (codes "p") NoRest ∷ main_giving (two signs.Equal
        (name (codes "p")) (Index 30 (name (codes "g")) (num 0))) ∷ []) ≡ (Global 1 ∷ Global 0 ∷ []) ∷ [] }
    // int g[2]; int main(void) { return sizeof(g); }
    ensures sized { by_functions (declaring int_base (Array 12 (num 2) NoParts) (codes "g") NoRest ∷
        main_giving (size_of (name (codes "g"))) ∷ []) ≡ (Global 0 ∷ []) ∷ [] }
    // int g[2]; int main(void) { return sizeof(*g); }
    ensures below_sizeof { by_functions (declaring int_base (Array 12 (num 2) NoParts) (codes "g") NoRest ∷
        main_giving (size_of (Prefix 30 signs.Star (name (codes "g")))) ∷ []) ≡ (Global 0 ∷ []) ∷ [] }
{}

//! Writes by name.

ghost use Rattle.std.specs.Prelude.{◌≡◌, codes, [], ◌∷◌};
ghost use Rattle.c_lexer.specs.declared.token.Sign.TheVariants as signs;
ghost use Rattle.c_syntax.specs.declared.declaration.Base.TheVariants as bases;
ghost use Rattle.c_syntax.specs.Syntax.{Array, Assign, Index, Member, NoParts, NoRest, Pointer, Postfix, Prefix};
ghost use Rattle.c_types_examples.specs.Small.{declaring, int_base, main_giving, name, num, two};
ghost use Rattle.c_types_examples.specs.Heard.{size_of};
ghost use Rattle.cut_graph_rules.specs.declared.mention.Mention.TheVariants.{Global, Written};
ghost use Rattle.cut_graph_examples.specs.Sources.{by_functions, with_members};

/// What is assigned to, changed, or under `&` is written at the root of its path, evaluated or not.
pub fn paths_are_written_at_their_roots()
    // int g; int main(void) { return g = 1; }
    ensures assigned { by_functions (declaring int_base NoParts (codes "g") NoRest ∷
        main_giving (Assign 30 signs.Assign (name (codes "g")) (num 1)) ∷ []) ≡
        (Written 0 ∷ Global 0 ∷ []) ∷ [] }
    // int g; int main(void) { return g++; }
    ensures stepped { by_functions (declaring int_base NoParts (codes "g") NoRest ∷
        main_giving (Postfix 30 signs.Increment (name (codes "g"))) ∷ []) ≡
        (Written 0 ∷ Global 0 ∷ []) ∷ [] }
    // int g; int main(void) { return &g == 0; }
    ensures address { by_functions (declaring int_base NoParts (codes "g") NoRest ∷
        main_giving (two signs.Equal (Prefix 30 signs.Ampersand (name (codes "g"))) (num 0)) ∷ []) ≡
        (Written 0 ∷ Global 0 ∷ []) ∷ [] }
    // int g; int main(void) { return sizeof(g = 1); }
    ensures unevaluated { by_functions (declaring int_base NoParts (codes "g") NoRest ∷
        main_giving (size_of (Assign 30 signs.Assign (name (codes "g")) (num 1))) ∷ []) ≡
        (Written 0 ∷ Global 0 ∷ []) ∷ [] }
    // int g[2]; int main(void) { return g[0] = 1; }
    ensures subscripted { by_functions (declaring int_base (Array 12 (num 2) NoParts) (codes "g") NoRest ∷
        main_giving (Assign 30 signs.Assign (Index 31 (name (codes "g")) (num 0)) (num 1)) ∷ []) ≡
        (Written 0 ∷ Global 0 ∷ []) ∷ [] }
    // int g[2]; int main(void) { return 0[g] = 1; }
    ensures in_other_order { by_functions (declaring int_base (Array 12 (num 2) NoParts) (codes "g") NoRest ∷
        main_giving (Assign 30 signs.Assign (Index 31 (num 0) (name (codes "g"))) (num 1)) ∷ []) ≡
        (Written 0 ∷ Global 0 ∷ []) ∷ [] }
    // int *p; int main(void) { return p[0] = 1; }
    ensures through_a_pointer { by_functions (declaring int_base (Pointer 12 NoParts) (codes "p") NoRest ∷
        main_giving (Assign 30 signs.Assign (Index 31 (name (codes "p")) (num 0)) (num 1)) ∷ []) ≡
        (Global 0 ∷ []) ∷ [] }
    // struct s { int *p; int a[2]; } g; int main(void) { return g.p[0] = 1; }
    ensures through_a_member { by_functions (with_members ∷ declaring (bases.Struct (codes "s")) NoParts
        (codes "g") NoRest ∷ main_giving (Assign 30 signs.Assign
        (Index 31 (Member 32 (name (codes "g")) (codes "p")) (num 0)) (num 1)) ∷ []) ≡ (Global 0 ∷ []) ∷ [] }
    // .. g.a[0] = 1
    ensures in_a_member { by_functions (with_members ∷ declaring (bases.Struct (codes "s")) NoParts
        (codes "g") NoRest ∷ main_giving (Assign 30 signs.Assign
        (Index 31 (Member 32 (name (codes "g")) (codes "a")) (num 0)) (num 1)) ∷ []) ≡
        (Written 0 ∷ Global 0 ∷ []) ∷ [] }
{}

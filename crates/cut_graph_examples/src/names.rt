//! Names.

ghost use Rattle.std.specs.Prelude.{◌≡◌, codes, [], ◌∷◌};
ghost use Rattle.c_lexer.specs.declared.token.Sign.TheVariants as signs;
ghost use Rattle.c_syntax.specs.Syntax.{Array, Initial, MoreDecls, MoreExprs, NoDecls, NoExprs, NoParts, NoRest, Params, Plain, Pointer, Prefix};
ghost use Rattle.c_types_examples.specs.Small.{call, cast_to, char_base, declaring, int_base, main_giving, main_with, name, num, num_l, two};
ghost use Rattle.c_types_examples.specs.Heard.{size_of, taking};
ghost use Rattle.cut_graph_rules.specs.declared.mention.Mention.TheVariants.{Function, Global};
ghost use Rattle.cut_graph_examples.specs.Sources.{by_functions, by_values, function_pointer, giving, hiding, only};

/// What is named is mentioned, however it is used: called, compared, or read.
pub fn names_are_mentioned()
    // int h(void) { return 0; } int main(void) { return h(); }
    ensures called { by_functions (giving (codes "h") (num 0) ∷
        main_giving (call (codes "h") NoExprs) ∷ []) ≡ [] ∷ (Function 16 ∷ []) ∷ [] }
    // int h(void) { return 0; } int main(void) { return h == 0; }
    ensures compared { by_functions (giving (codes "h") (num 0) ∷
        main_giving (two signs.Equal (name (codes "h")) (num 0)) ∷ []) ≡ [] ∷ (Function 16 ∷ []) ∷ [] }
    // int main(void) { return r2_lock(0); }
    ensures builtin { by_functions (main_giving (call (codes "r2_lock") (MoreExprs (num 0) NoExprs)) ∷
        []) ≡ (Function 4 ∷ []) ∷ [] }
    // int g; int main(void) { return g; }
    ensures read { by_functions (declaring int_base NoParts (codes "g") NoRest ∷
        main_giving (name (codes "g")) ∷ []) ≡ (Global 0 ∷ []) ∷ [] }
    // int g; int main(void) { int g; return g; }
    ensures hidden { by_functions (declaring int_base NoParts (codes "g") NoRest ∷
        hiding (codes "main") (codes "g") ∷ []) ≡ [] ∷ [] }
{}

/// What is never evaluated in a body is mentioned as well: operands of `sizeof`, and lengths of arrays. What stands in the types
/// of its parameters isn't.
pub fn unevaluated_names_are_mentioned()
    // int h(void) { return 0; } int main(void) { return sizeof(h()); }
    ensures operand { by_functions (giving (codes "h") (num 0) ∷
        main_giving (size_of (call (codes "h") NoExprs)) ∷ []) ≡ [] ∷ (Function 16 ∷ []) ∷ [] }
    // int g; int main(void) { char a[sizeof(g)]; return 0; }
    ensures length { by_functions (declaring int_base NoParts (codes "g") NoRest ∷
        main_with (declaring char_base (Array 12 (size_of (name (codes "g"))) NoParts) (codes "a") NoRest) ∷
        []) ≡ (Global 0 ∷ []) ∷ [] }
    // int g; int main(void) { int (*f)(int g, char a[sizeof(g)]); return 0; }
    ensures prototype { by_functions (declaring int_base NoParts (codes "g") NoRest ∷
        main_with (declaring int_base (Params 13 (MoreDecls (declaring int_base NoParts (codes "g") NoRest)
        (MoreDecls (declaring char_base (Array 12 (size_of (name (codes "g"))) NoParts) (codes "a") NoRest)
        NoDecls)) (Pointer 14 NoParts)) (codes "f") NoRest) ∷ []) ≡ [] ∷ [] }
    // int g; int main(void) { return (char (*)[sizeof(g)])0L == 0; }
    ensures type_name { by_functions (declaring int_base NoParts (codes "g") NoRest ∷ main_giving (two
        signs.Equal (cast_to char_base (Array 32 (size_of (name (codes "g"))) (Pointer 33 NoParts)) (num_l 0))
        (num 0)) ∷ []) ≡ (Global 0 ∷ []) ∷ [] }
    // int g; int f(char a[sizeof(g)]) { return 0; } int main(void) { return 0; }
    ensures parameter { by_functions (declaring int_base NoParts (codes "g") NoRest ∷
        taking (declaring char_base (Array 12 (size_of (name (codes "g"))) NoParts) (codes "a") NoRest) ∷
        main_giving (num 0) ∷ []) ≡ [] ∷ [] ∷ [] }
{}

/// The value of a global names functions; an address of a global in it mentions nothing.
pub fn values_name_functions()
    // int h(void) { return 0; } int (*t)(void) = h; int main(void) { return 0; }
    ensures pointer { by_values (giving (codes "h") (num 0) ∷
        declaring int_base (Params 8 NoDecls (Pointer 9 NoParts)) (codes "t")
        (Initial (Plain (name (codes "h")))) ∷ main_giving (num 0) ∷ []) ≡ (Function 16 ∷ []) ∷ [] }
    // int h(void) { return 0; } int (*t[1])(void) = { h }; int main(void) { return 0; }
    ensures listed { by_values (giving (codes "h") (num 0) ∷
        declaring int_base (function_pointer (Array 7 (num 1) NoParts)) (codes "t")
        (only (name (codes "h"))) ∷ main_giving (num 0) ∷ []) ≡ (Function 16 ∷ []) ∷ [] }
    // int g; int *p = &g; int main(void) { return 0; }
    ensures address { by_values (declaring int_base NoParts (codes "g") NoRest ∷
        declaring int_base (Pointer 9 NoParts) (codes "p")
        (Initial (Plain (Prefix 30 signs.Ampersand (name (codes "g"))))) ∷ main_giving (num 0) ∷ []) ≡
        [] ∷ [] ∷ [] }
    // int h(void) { return 0; } int n = sizeof(h()); int main(void) { return 0; }
    ensures unevaluated { by_values (giving (codes "h") (num 0) ∷
        declaring int_base NoParts (codes "n") (Initial (Plain (size_of (call (codes "h") NoExprs)))) ∷
        main_giving (num 0) ∷ []) ≡ (Function 16 ∷ []) ∷ [] }
{}

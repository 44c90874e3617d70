//! What is typed and never evaluated.

ghost use Rattle.std.specs.Prelude.{◌≡◌, codes, pos, [], ◌∷◌};
ghost use Rattle.r2_num.specs.declared.kinds.IntKind.TheVariants.{U64};
ghost use Rattle.c_syntax.specs.Syntax.{Array, Initial, NoDecls, NoExprs, NoParts, NoRest, Params, Plain};
ghost use Rattle.c_types_rules.specs.TypedTree.{AValue, AnObject, CallOf, Constant, GlobalObject, NoValues, SourceFunction, int};
ghost use Rattle.c_types_examples.specs.Small.{call, char_base, declaring, int_base, main_giving, main_with, name, num};
ghost use Rattle.c_types_examples.specs.Heard.{in_functions, in_globals, size_of, size_of_chars, taking};

/// Operands of `sizeof` and lengths of arrays stay in the typed program, each after those within it.
pub fn what_is_not_evaluated_is_kept()
    // int g; int main(void) { return sizeof(g); }
    ensures operand { in_functions (declaring int_base NoParts (codes "g") NoRest ∷
        main_giving (size_of (name (codes "g"))) ∷ []) ≡ (AnObject (GlobalObject 30 0 int) ∷ []) ∷ [] }
    // int f(void); int main(void) { char x[sizeof(f())]; return 0; }
    ensures length { in_functions (declaring int_base (Params 8 NoDecls NoParts) (codes "f") NoRest ∷
        main_with (declaring char_base (Array 12 (size_of (call (codes "f") NoExprs)) NoParts) (codes "x")
        NoRest) ∷ []) ≡ [] ∷ (AValue (CallOf (SourceFunction 30 16) NoValues int) ∷
        AValue (Constant U64 (pos 4)) ∷ []) ∷ [] }
    // int g; int f(char a[sizeof(g)]) { return 0; } int main(void) { return 0; }
    ensures parameter { in_functions (declaring int_base NoParts (codes "g") NoRest ∷
        taking (declaring char_base (Array 12 (size_of (name (codes "g"))) NoParts) (codes "a") NoRest) ∷
        main_giving (num 0) ∷ []) ≡ (AnObject (GlobalObject 30 0 int) ∷ AValue (Constant U64 (pos 4)) ∷ []) ∷
        [] ∷ [] }
    // int g; int x = sizeof(g);
    ensures value { in_globals (declaring int_base NoParts (codes "g") NoRest ∷
        declaring int_base NoParts (codes "x") (Initial (Plain (size_of (name (codes "g"))))) ∷
        main_giving (num 0) ∷ []) ≡ [] ∷ (AnObject (GlobalObject 30 0 int) ∷ []) ∷ [] }
    // int g; int main(void) { return sizeof(sizeof(g)); }
    ensures nested { in_functions (declaring int_base NoParts (codes "g") NoRest ∷
        main_giving (size_of (size_of (name (codes "g")))) ∷ []) ≡ (AnObject (GlobalObject 30 0 int) ∷
        AValue (Constant U64 (pos 4)) ∷ []) ∷ [] }
    // int g; int main(void) { return sizeof(char [sizeof(g)]); }
    ensures in_type { in_functions (declaring int_base NoParts (codes "g") NoRest ∷
        main_giving (size_of_chars (Array 32 (size_of (name (codes "g"))) NoParts)) ∷ []) ≡
        (AnObject (GlobalObject 30 0 int) ∷ AValue (Constant U64 (pos 4)) ∷ []) ∷ [] }
    // int g; int main(void) { return g; }
    ensures nothing { in_functions (declaring int_base NoParts (codes "g") NoRest ∷
        main_giving (name (codes "g")) ∷ []) ≡ [] ∷ [] }
{}

//! Expressions.

ghost use Rattle.std.specs.Prelude.{◌≡◌, codes, pos, negsuc, [], ◌∷◌, true, Some, None};
ghost use Rattle.r2_num.specs.declared.kinds.IntKind.TheVariants.{I8, I32, I64, U32, U64};
ghost use Rattle.c_lexer.specs.declared.token.Sign.TheVariants as signs;
ghost use Rattle.c_syntax.specs.Syntax.{Call, Cast, Declare, MoreExprs, Name, NoAnnots, NoExprs, NoParts, NoRest, Pointer, SizeofExpr};
ghost use Rattle.c_types_model.specs.Types.{Integer, PointerTo};
ghost use Rattle.c_types_examples.specs.Small.{call, called_at, cast_to, char_base, choose, constant_of, int_base, is_typed, long_base, main_giving, minus, name, num, num_l, num_u, rule_of, two, type_of, unsigned_char_base};

/// Small kinds are promoted to int, and two operands get their common kind (C11 6.3.1.1, 6.3.1.8).
pub fn operands_are_converted()
    ensures small { type_of (two signs.Plus (cast_to unsigned_char_base NoParts (num 1))
        (cast_to char_base NoParts (num 1))) ≡ Some (Integer I32) }
    ensures unsigned { type_of (two signs.Plus (num 1) (num_u 1)) ≡ Some (Integer U32) }
    ensures wide { type_of (two signs.Plus (num_u 1) (num_l 1)) ≡ Some (Integer I64) }
    ensures shifted { type_of (two signs.ShiftLeft (num 1) (num_l 1)) ≡ Some (Integer I32) }
    ensures compared { type_of (two signs.Less (num_l 1) (num_l 1)) ≡ Some (Integer I32) }
    ensures chosen { type_of (choose (num 1) (num 1) (num_l 1)) ≡ Some (Integer I64) }
    ensures large_number { type_of (num 2147483648) ≡ Some (Integer I64) }
    ensures size { type_of (SizeofExpr 30 (num 1)) ≡ Some (Integer U64) }
    ensures pointer { type_of (choose (num 1) (cast_to char_base (Pointer 31 NoParts) (num_l 1)) (num 0)) ≡
        Some (PointerTo (Integer I8)) }
{}

/// What an integer constant expression is worth, and which is none (C11 6.6).
pub fn constants_are_evaluated()
    ensures wraps { constant_of (two signs.Plus (num 2147483647) (num 1)) ≡ Some (negsuc 2147483647) }
    ensures unsigned_comparison { constant_of (two signs.Less (minus (num 1)) (num_u 1)) ≡ Some (pos 0) }
    ensures towards_zero { constant_of (two signs.Slash (minus (num 7)) (num 2)) ≡ Some (negsuc 2) }
    ensures rounds_down { constant_of (two signs.ShiftRight (minus (num 1)) (num 1)) ≡ Some (negsuc 0) }
    ensures skips { constant_of (two signs.AndAnd (num 0) (two signs.Slash (num 1) (num 0))) ≡
        Some (pos 0) }
    ensures skips_arm { constant_of (choose (num 1) (num 2) (two signs.Percent (num 1) (num 0))) ≡
        Some (pos 2) }
    ensures by_zero { constant_of (two signs.Slash (num 1) (num 0)) ≡ None }
    ensures too_far { constant_of (two signs.ShiftLeft (num 1) (num 32)) ≡ None }
    ensures least { constant_of (two signs.Slash (two signs.Minus (minus (num 2147483647)) (num 1))
        (minus (num 1))) ≡ None }
    ensures comma { constant_of (two signs.Comma (num 1) (num 2)) ≡ None }
{}

/// Casts, calls and names keep their rules, or break them where they stand.
pub fn casts_and_calls_keep_their_rules()
    ensures from_int { rule_of (main_giving (two signs.Equal
        (cast_to char_base (Pointer 31 NoParts) (num 0)) (num 0)) ∷ []) ≡ Some (30, 7) }
    ensures from_long { is_typed (main_giving
        (two signs.Equal (cast_to char_base (Pointer 31 NoParts) (num_l 0)) (num 0)) ∷ []) ≡ true }
    ensures unknown { rule_of (main_giving (name (codes "x")) ∷ []) ≡ Some (30, 1) }
    ensures builtin { rule_of (main_giving (name (codes "r2_lock")) ∷ []) ≡ Some (30, 19) }
    ensures called { is_typed (main_giving (call (codes "r2_lock") (MoreExprs (num 1) NoExprs)) ∷ []) ≡
        true }
    ensures too_few { rule_of (main_giving (call (codes "r2_lock") NoExprs) ∷ []) ≡ Some (30, 9) }
    ensures wrong_argument { rule_of (main_giving
        (Call 40 (Name 41 (codes "r2_join")) (MoreExprs
        (Cast 45 (Declare 46 NoAnnots char_base (Pointer 47 NoParts) None NoRest) (num_l 0)) NoExprs)) ∷
        []) ≡ Some (45, 6) }
    ensures name_in_brackets { called_at (Call 40 (Name 41 (codes "r2_unlock"))
        (MoreExprs (num 0) NoExprs)) ≡ Some 41 }
    ensures pointer_given { rule_of (main_giving (cast_to char_base (Pointer 31 NoParts) (num_l 0)) ∷ []) ≡
        Some (30, 6) }
{}

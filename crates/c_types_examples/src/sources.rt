//! Declarations.

ghost use Rattle.std.specs.Prelude.{◌≡◌, codes, pos, [], ◌∷◌, true, Some, None};
ghost use Rattle.c_lexer.specs.declared.token.Sign.TheVariants as signs;
ghost use Rattle.c_syntax.specs.declared.declaration.Base.TheVariants as bases;
ghost use Rattle.c_syntax.specs.Syntax.{Array, Initial, MoreDecls, NoDecls, NoParts, NoRest, Params, Plain, Pointer};
ghost use Rattle.c_types_rules.specs.Limits.{Frame, Members, Object, Params as TooManyParams};
ghost use Rattle.c_types_examples.specs.Small.{char_base, declaring, int_base, is_typed, limit_of, long_base, main_giving, main_with, name, num, rule_of, source, struct_with, structs_of, two};

/// The members of a struct lie at multiples of their alignments, and its size is rounded up (C11 6.7.2.1).
pub fn structs_are_laid_out()
    ensures { structs_of (struct_with (codes "s") (declaring char_base NoParts (codes "a") NoRest ∷
        declaring (bases.Int 2 true) NoParts (codes "b") NoRest ∷
        declaring long_base NoParts (codes "c") NoRest ∷ declaring char_base NoParts (codes "d") NoRest ∷
        []) ∷ main_giving (num 0) ∷ []) ≡ record { size = 24; align = 8 } ∷ [] }
{}

/// Declarations keep their rules, or break them where they stand.
pub fn declarations_keep_their_rules()
    ensures no_main { rule_of [] ≡ Some (0, 18) }
    ensures twice { rule_of (declaring int_base NoParts (codes "x") NoRest ∷
        declaring int_base NoParts (codes "x") NoRest ∷ main_giving (num 0) ∷ []) ≡ Some (10, 1) }
    ensures used { is_typed (declaring int_base NoParts (codes "x") NoRest ∷
        main_giving (name (codes "x")) ∷ []) ≡ true }
    ensures reserved { rule_of (declaring int_base NoParts (codes "r2_x") NoRest ∷ main_giving (num 0) ∷
        []) ≡ Some (10, 19) }
    ensures no_length { rule_of (declaring int_base (Array 12 (num 0) NoParts) (codes "x") NoRest ∷
        main_giving (num 0) ∷ []) ≡ Some (12, 4) }
    ensures through_pointer { is_typed (declaring (bases.Struct (codes "s")) (Pointer 9 NoParts)
        (codes "p") NoRest ∷ main_giving (num 0) ∷ []) ≡ true }
    ensures undefined { rule_of (declaring (bases.Struct (codes "s")) NoParts (codes "x") NoRest ∷
        main_giving (num 0) ∷ []) ≡ Some (10, 2) }
    ensures no_object { rule_of (declaring bases.Void NoParts (codes "x") NoRest ∷ main_giving (num 0) ∷
        []) ≡ Some (10, 3) }
    ensures no_constant { rule_of (declaring int_base NoParts (codes "x") NoRest ∷
        declaring int_base NoParts (codes "y") (Initial (Plain (name (codes "x")))) ∷ main_giving (num 0) ∷
        []) ≡ Some (30, 16) }
    ensures number_given { rule_of (declaring char_base (Pointer 12 NoParts) (codes "p")
        (Initial (Plain (num 5))) ∷ main_giving (num 0) ∷ []) ≡ Some (30, 6) }
    ensures array_given { rule_of (main_with (declaring int_base (Array 12 (num 2) NoParts) (codes "x")
        (Initial (Plain (num 0)))) ∷ []) ≡ Some (10, 17) }
{}

/// Sizes and counts just within a limit, and just above it.
pub fn limits_are_told()
    ensures object { limit_of (declaring int_base
        (Array 12 (num 1000000) (Array 13 (num 1000000) (Array 14 (num 1000000) NoParts))) (codes "x")
        NoRest ∷ main_giving (num 0) ∷ []) ≡ Some Object }
    ensures object_fits { is_typed (declaring char_base (Array 12 (num 1048576) NoParts) (codes "x")
        NoRest ∷ main_giving (num 0) ∷ []) ≡ true }
    ensures object_passes { limit_of (declaring char_base (Array 12 (num 1048577) NoParts) (codes "x")
        NoRest ∷ main_giving (num 0) ∷ []) ≡ Some Object }
    ensures parameter_fits { is_typed (declaring int_base
        (Params 12 (MoreDecls (declaring char_base (Array 13 (num 1048577) NoParts) (codes "a") NoRest)
        NoDecls) NoParts) (codes "f") NoRest ∷ main_giving (num 0) ∷ []) ≡ true }
    ensures parameter_passes { limit_of (declaring int_base
        (Params 12 (MoreDecls (declaring char_base (Array 13 (num 1048577) (Array 14 (num 2) NoParts))
        (codes "a") NoRest) NoDecls) NoParts) (codes "f") NoRest ∷ main_giving (num 0) ∷ []) ≡ Some Object }
    ensures frame_fits { is_typed (main_with (declaring char_base (Array 12 (num 32768) NoParts)
        (codes "x") NoRest) ∷ []) ≡ true }
    ensures frame_passes { limit_of (main_with
        (declaring char_base (Array 12 (num 32769) NoParts) (codes "x") NoRest) ∷ []) ≡ Some Frame }
{}

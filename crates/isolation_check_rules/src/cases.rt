//! Small cases, computed.

ghost use Rattle.std.specs.Prelude.{◌≡◌, ◌∷◌, [], negsuc, pos};
ghost use Rattle.c_types_model.specs.Types.{ArrayOf, Integer, PointerTo};
ghost use Rattle.c_types_model.specs.Layouts.{scalar};
ghost use Rattle.c_types_rules.specs.Initials.{AddressOfFunction, AddressOfGlobal, AddressOfText, Bytes, Listed, MoreInitials, NoInitials, Number, Scalar};
ghost use Rattle.r2_num.specs.declared.kinds.IntKind.TheVariants.{I32, I8};
ghost use Rattle.isolation_check_rules.specs.declared.area.Area.TheVariants.{Constants, Replay, System};
ghost use Rattle.isolation_check_rules.specs.Addresses.{addresses_from, first_ends, string_addresses};
ghost use Rattle.isolation_check_rules.specs.Images.{image};
ghost use Rattle.isolation_check_rules.specs.Cases.{pair, placed_source};

/// Strings lie at multiples of 16, each with its zero; that of 15 bytes leaves no gap, and the empty one takes a byte.
pub fn strings_lie_one_after_another()
    ensures { string_addresses ((104 ∷ 105 ∷ []) ∷ [] ∷
        (1 ∷ 2 ∷ 3 ∷ 4 ∷ 5 ∷ 6 ∷ 7 ∷ 8 ∷ 9 ∷ 10 ∷ 11 ∷ 12 ∷ 13 ∷ 14 ∷ 15 ∷ []) ∷ [] ∷ []) ≡
        1048576 ∷ 1048592 ∷ 1048608 ∷ 1048624 ∷ [] }
{}

/// Each area has a row of its own: `char`s and `long`s in turn over the three of them, where a string of two bytes stands in the
/// source.
pub fn each_area_has_a_row()
    ensures { addresses_from (first_ends ((104 ∷ 105 ∷ []) ∷ []))
        (Constants ∷ Replay ∷ System ∷ Constants ∷ Replay ∷ System ∷ [])
        (scalar 1 ∷ scalar 8 ∷ scalar 1 ∷ scalar 8 ∷ scalar 1 ∷ scalar 8 ∷ []) ≡
        1048579 ∷ 268435456 ∷ 1342177280 ∷ 1048584 ∷ 268435464 ∷ 1342177288 ∷ [] }
{}

/// Numbers have the low byte first, and negative ones are complements; addresses are those of the functions, globals and strings.
pub fn scalars_have_their_bytes()
    ensures number { image placed_source (Scalar (Number (pos 258))) (Integer I32) ≡ 2 ∷ 1 ∷ 0 ∷ 0 ∷ [] }
    ensures negative { image placed_source (Scalar (Number (negsuc 1))) (Integer I32) ≡
        254 ∷ 255 ∷ 255 ∷ 255 ∷ [] }
    ensures function { image placed_source (Scalar (AddressOfFunction 9 16)) (PointerTo (Integer I8)) ≡
        0 ∷ 17 ∷ 0 ∷ 0 ∷ 0 ∷ 0 ∷ 0 ∷ 0 ∷ [] }
    ensures global { image placed_source (Scalar (AddressOfGlobal 1)) (PointerTo (Integer I8)) ≡
        8 ∷ 0 ∷ 0 ∷ 16 ∷ 0 ∷ 0 ∷ 0 ∷ 0 ∷ [] }
    ensures string { image placed_source (Scalar (AddressOfText 30)) (PointerTo (Integer I8)) ≡
        16 ∷ 0 ∷ 16 ∷ 0 ∷ 0 ∷ 0 ∷ 0 ∷ 0 ∷ [] }
{}

/// What isn't given is zero: the rest of an array or a struct, and what lies between members.
pub fn the_rest_is_zero()
    ensures text { image placed_source (Bytes (104 ∷ 105 ∷ [])) (ArrayOf 4 (Integer I8)) ≡
        104 ∷ 105 ∷ 0 ∷ 0 ∷ [] }
    ensures elements { image placed_source (Listed (MoreInitials (Scalar (Number (pos 7))) NoInitials))
        (ArrayOf 2 (Integer I32)) ≡ 7 ∷ 0 ∷ 0 ∷ 0 ∷ 0 ∷ 0 ∷ 0 ∷ 0 ∷ [] }
    ensures members { image placed_source (Listed (MoreInitials (Scalar (Number (pos 1)))
        (MoreInitials (Scalar (Number (pos 2))) NoInitials))) pair ≡
        1 ∷ 0 ∷ 0 ∷ 0 ∷ 0 ∷ 0 ∷ 0 ∷ 0 ∷ 2 ∷ 0 ∷ 0 ∷ 0 ∷ 0 ∷ 0 ∷ 0 ∷ 0 ∷ [] }
    ensures first_member { image placed_source
        (Listed (MoreInitials (Scalar (Number (pos 1))) NoInitials)) pair ≡
        1 ∷ 0 ∷ 0 ∷ 0 ∷ 0 ∷ 0 ∷ 0 ∷ 0 ∷ 0 ∷ 0 ∷ 0 ∷ 0 ∷ 0 ∷ 0 ∷ 0 ∷ 0 ∷ [] }
{}

//! What holds of where strings and globals lie.

ghost use Rattle.std.specs.Prelude.{◌≡◌, ℕ, ◌+◌, ◌*◌, ◌≤◌, List};
ghost use Rattle.std.specs.List.{All};
ghost use Rattle.source_limits.specs.Limits.{greatest_object};
ghost use Rattle.c_lexer_laws.specs.Strings.{spelled};
ghost use Rattle.c_syntax.specs.Syntax.{Decls};
ghost use Rattle.c_types_rules.specs.Limits.{Typed, globals_end, outcome};
ghost use Rattle.c_types_rules.specs.Sources.{Program};
ghost use Rattle.c_types_model.specs.Layouts.{end_from};
ghost use Rattle.c_types_model.specs.declared.extent.Extent.{Extent};
ghost use Rattle.marks.specs.Places.{constants};
ghost use Rattle.isolation_check_rules.specs.declared.area.Area.{Area};
ghost use Rattle.isolation_check_rules.specs.Addresses.{addresses_from, first_ends, string_addresses, strings_end};
ghost use Rattle.isolation_check_rules.specs.Places.{global_extents};
ghost use Rattle.isolation_check_laws.specs.Fits.{AreBetween, AreStrings, Divides, first_in, last_in};

use c_types_model::offsets_are_least_multiples;

/// A law: strings lie among the constants, and take at most eight times the bytes that spell them in a source.
pub fn strings_lie_among_constants()
    ensures lie { (strings : List (List ℕ)) →
        AreStrings (strings_end strings) strings (string_addresses strings) }
    ensures short { (strings : List (List ℕ)) → strings_end strings ≤ constants + 8 * spelled strings }
{
    offsets_are_least_multiples();
}

/// A law: where all globals would fit in one area, each lies in its own, if the strings stand in a source of 1 MiB at most.
pub fn globals_lie_in_their_areas()
    ensures { (strings : List (List ℕ)) (areas : List Area) (xs : List Extent) →
        spelled strings ≤ greatest_object → end_from 0 xs ≤ greatest_object → All Divides xs →
        AreBetween (first_in strings) last_in areas xs (addresses_from (first_ends strings) areas xs) }
{
    offsets_are_least_multiples();
}

/// A law: all globals of a source that keeps the rules of types and exceeds no limit would fit in one area, and blocks can begin
/// at the multiples of their alignments.
pub fn typed_globals_fit()
    ensures small { (ds : Decls) (p : Program) → outcome ds ≡ Typed p → globals_end p ≤ greatest_object }
    ensures aligned { (ds : Decls) (p : Program) → outcome ds ≡ Typed p → All Divides (global_extents p) }
{}

//! What holds of the definitions.

ghost use Rattle.std.specs.Prelude.{◌≡◌, ◌↔◌, IsTrue};
ghost use Rattle.c_types_model.specs.Types.{CType};
ghost use Rattle.c_types_rules.specs.TypeTests.{same_type};

/// A law: the test of types is equality.
pub fn types_are_compared()
    ensures { (t u : CType) → IsTrue (same_type t u) ↔ (t ≡ u) }
{}

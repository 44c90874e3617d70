//! What memory asks of places.

ghost use Rattle.std.specs.Prelude.{List};
ghost use Rattle.memory_map.specs.declared.placed.Placed.{Placed};
ghost use Rattle.cut_graph_rules.specs.Findings.{Cut};
ghost use Rattle.isolation_check_rules.specs.Places.{IsPlaced, Literal, bytes_in};
ghost use Rattle.isolation_check_laws.specs.Fits.{FitsAreas};
ghost use Rattle.isolation_check_apart.specs.Apart.{AreApart};

use c_types_model::offsets_are_least_multiples;

/// A law: where the strings and globals of a source fit in their areas, their places all lie in areas, and no two meet.
pub fn placed_objects_lie_apart()
    ensures { (c : Cut) (ls : List Literal) (q : Placed) → FitsAreas c.program (bytes_in ls) →
        IsPlaced c ls q → AreApart q }
{
    offsets_are_least_multiples();
}

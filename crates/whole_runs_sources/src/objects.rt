//! The objects of a source.

ghost use Rattle.std.specs.Prelude.{ℕ, List};
ghost use Rattle.memory_map.specs.declared.placed.Placed.{Placed};
ghost use Rattle.front_end.specs.declared.source.CheckedSource.{CheckedSource};
ghost use Rattle.whole_runs.specs.Fits.{PlacesObjects};
ghost use Rattle.whole_runs_sources.specs.Laws.{IsPlacedAs, laid_at};

/// A law: there is a place for each global and each string that the code of an accepted source names, each whole in an area, and no two of
/// them meet.
pub fn accepted_objects_are_placed()
    ensures { (bytes cut : List ℕ) (c : CheckedSource) (q : Placed) → IsPlacedAs bytes cut c q →
        PlacesObjects (laid_at c q) }
{}

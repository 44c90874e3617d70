//! The functions of a cut.

ghost use Rattle.std.specs.Prelude.{ℕ, List};
ghost use Rattle.memory_map.specs.declared.placed.Placed.{Placed};
ghost use Rattle.front_end.specs.declared.source.CheckedSource.{CheckedSource};
ghost use Rattle.whole_runs.specs.Fits.{KeepsModes, PlacesFunctions};
ghost use Rattle.whole_runs_sources.specs.Laws.{IsPlacedAs, laid_at};

use crate::code::accepted_code_fits;

/// A law: where nothing is found in the cut of an accepted source, it is said of each function that its code names in which modes it may
/// run, and direct calls keep the modes.
pub fn accepted_code_keeps_modes()
    ensures functions { (bytes cut : List ℕ) (c : CheckedSource) (q : Placed) → IsPlacedAs bytes cut c q →
        PlacesFunctions (laid_at c q) }
    ensures modes { (bytes cut : List ℕ) (c : CheckedSource) (q : Placed) → IsPlacedAs bytes cut c q →
        KeepsModes (laid_at c q) }
{
    accepted_code_fits();
}

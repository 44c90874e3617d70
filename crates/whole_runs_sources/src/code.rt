//! Flat code.

ghost use Rattle.std.specs.Prelude.{◌≤◌, ℕ, List, length};
ghost use Rattle.memory_map.specs.declared.placed.Placed.{Placed};
ghost use Rattle.front_end.specs.declared.source.CheckedSource.{CheckedSource};
ghost use Rattle.front_end.specs.Answers.{IsAccepted};
ghost use Rattle.whole_runs.specs.Fits.{IsFitCode};
ghost use Rattle.whole_runs_sources.specs.Laws.{IsPlacedAs, laid_at};

use c_lower_laws::typed_programs_fit;
use c_lower_placement::emitted_code_is_steady;

/// A law: an accepted source declares few functions, as the calls ask that make its stubs and read its system file.
pub fn accepted_sources_have_few_functions()
    ensures { (bytes cut : List ℕ) (c : CheckedSource) → IsAccepted bytes cut c →
        length c.program.functions ≤ 1000 }
{}

/// A law: the flat code of an accepted source is valid, hands over values of their types alone, and has a `main` that begins a run above
/// the cut.
pub fn accepted_code_fits()
    ensures { (bytes cut : List ℕ) (c : CheckedSource) (q : Placed) → IsPlacedAs bytes cut c q →
        IsFitCode (laid_at c q) }
{
    typed_programs_fit();
    emitted_code_is_steady();
}

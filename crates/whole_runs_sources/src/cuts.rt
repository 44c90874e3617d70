//! Cuts.

ghost use Rattle.std.specs.Prelude.{ℕ, List};
ghost use Rattle.front_end.specs.declared.source.CheckedSource.{CheckedSource};
ghost use Rattle.whole_runs.specs.World.{World};
ghost use Rattle.whole_runs_sources.specs.Laws.{IsWorldOf, RunsUnderItsCut};

use crate::code::accepted_code_fits;
use c_lower_laws::typed_programs_fit;
use whole_runs_cuts_sources::programs_run_under_their_cuts;

/// A law: a recording of an accepted source runs under the cut of the source, so that the cut is sound in it.
pub fn accepted_sources_run_under_their_cuts()
    ensures { (bytes cut script : List ℕ) (c : CheckedSource) (w : World) →
        IsWorldOf bytes cut script c w → RunsUnderItsCut bytes cut c w }
{
    accepted_code_fits();
    typed_programs_fit();
    programs_run_under_their_cuts();
}

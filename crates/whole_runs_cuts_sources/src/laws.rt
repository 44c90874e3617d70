//! Typed programs run under their cuts.

ghost use Rattle.c_semantics.specs.Context.{Source};
ghost use Rattle.c_types_program.specs.Declarations.{Declared};
ghost use Rattle.whole_runs.specs.World.{World};
ghost use Rattle.whole_runs_cuts_sources.specs.Laws.{ProgramsRunUnderTheirCuts};

use c_lower_placement::emitted_code_makes_the_marks;
use whole_runs_cuts::places_keep_the_cut;

/// A law: where the flat code of a typed program runs, with its objects placed for an accepted cut, it runs under that cut.
pub fn programs_run_under_their_cuts()
    ensures { (p : Declared) (s : Source) (w : World) → ProgramsRunUnderTheirCuts p s w }
{
    emitted_code_makes_the_marks();
    places_keep_the_cut();
}

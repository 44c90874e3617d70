//! An accepted cut is sound in whole runs.

ghost use Rattle.c_semantics.specs.Context.{Source};
ghost use Rattle.cut_graph_rules.specs.Findings.{Cut};
ghost use Rattle.whole_runs.specs.World.{World};
ghost use Rattle.whole_runs_cuts.specs.Laws.{PlacesKeepTheCut, RunsKeepTheCut, StepsKeepTheCut};

use cut_graph_run_laws::code_keeps_the_cut;

/// A law: where the places are those of a cut, the world lets functions run where the cut lets them.
pub fn places_keep_the_cut()
    ensures { (w : World) → PlacesKeepTheCut w }
{}

/// A law: where the code of a source runs under an accepted cut, after each step each thread keeps to the cut on both sides by the tests of
/// steps; so marks, of whichever threads, run functions only where they may run, and keep globals apart.
pub fn steps_keep_the_cut()
    ensures { (s : Source) (c : Cut) (w : World) → StepsKeepTheCut s c w }
{
    code_keeps_the_cut();
}

/// A law: so do the marks of a whole run, however it ends.
pub fn runs_keep_the_cut()
    ensures { (s : Source) (c : Cut) (w : World) → RunsKeepTheCut s c w }
{
    steps_keep_the_cut();
}

//! Worlds.

ghost use Rattle.std.specs.Prelude.{ℕ, List};
ghost use Rattle.front_end.specs.declared.source.CheckedSource.{CheckedSource};
ghost use Rattle.whole_runs.specs.Fits.{IsFit};
ghost use Rattle.whole_runs.specs.World.{World};
ghost use Rattle.whole_runs_sources.specs.Laws.{IsWorldOf};

use crate::code::accepted_code_fits;
use crate::file::read_files_fit_their_sources;
use crate::modes::accepted_code_keeps_modes;
use crate::objects::accepted_objects_are_placed;
use crate::stubs::placed_stubs_fit;

/// A law: what a recording of an accepted source is given fits: its code, with its objects in the places of its cut, its stubs, and a
/// system file that is read for it.
pub fn accepted_sources_fit()
    ensures { (bytes cut script : List ℕ) (c : CheckedSource) (w : World) →
        IsWorldOf bytes cut script c w → IsFit w }
{
    accepted_code_fits();
    accepted_code_keeps_modes();
    accepted_objects_are_placed();
    placed_stubs_fit();
    read_files_fit_their_sources();
}

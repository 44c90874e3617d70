//! System files.

ghost use Rattle.std.specs.Prelude.{ℕ, List};
ghost use Rattle.front_end.specs.declared.source.CheckedSource.{CheckedSource};
ghost use Rattle.whole_runs.specs.Fits.{IsFitFile};
ghost use Rattle.whole_runs.specs.World.{World};
ghost use Rattle.whole_runs_sources.specs.Laws.{IsWorldOf};

use annot_reader::interfaces_say_what_annotations_say;
use sys_script_lines::read_files_are_fit;

/// A law: a system file that is read for an accepted source fits it. Each answer is of a function without a body, gives a value of its
/// result's type, and has a piece for each region that is written and for what is released, whatever the call.
pub fn read_files_fit_their_sources()
    ensures { (bytes cut script : List ℕ) (c : CheckedSource) (w : World) →
        IsWorldOf bytes cut script c w → IsFitFile w }
{
    interfaces_say_what_annotations_say();
    read_files_are_fit();
}

//! Stubs.

ghost use Rattle.std.specs.Prelude.{ℕ, List};
ghost use Rattle.memory_map.specs.declared.placed.Placed.{Placed};
ghost use Rattle.c_code.specs.Machine.{is_face};
ghost use Rattle.stub_operations.specs.declared.purpose.Purpose.{Purpose};
ghost use Rattle.stub_operations.specs.Stubs.{Stubs};
ghost use Rattle.stub_meaning.specs.Fits.{IsFit};
ghost use Rattle.call_operations.specs.Sets.{AreStubs};
ghost use Rattle.front_end.specs.declared.source.CheckedSource.{CheckedSource};
ghost use Rattle.whole_runs_sources.specs.Laws.{IsPlacedAs, laid_at};

use annot_reader::interfaces_say_what_annotations_say;
use front_end_laws::accepted_stubs_fit;

/// A law: the stubs of an accepted source fit its code, where its flags say which functions are of the interface.
pub fn placed_stubs_fit()
    ensures { (bytes cut : List ℕ) (c : CheckedSource) (q : Placed) → IsPlacedAs bytes cut c q →
        (purpose : Purpose) (s : Stubs) → AreStubs purpose c.program.functions c.interface s →
        IsFit purpose c.code (is_face (laid_at c q)) s }
{
    interfaces_say_what_annotations_say();
    accepted_stubs_fit();
}

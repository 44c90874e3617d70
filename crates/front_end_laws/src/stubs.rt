//! That the stubs of an accepted source fit its code.

ghost use Rattle.std.specs.Prelude.{List, ℕ};
ghost use Rattle.stub_operations.specs.declared.purpose.Purpose.{Purpose};
ghost use Rattle.stub_operations.specs.Stubs.{Stubs};
ghost use Rattle.stub_meaning.specs.Fits.{IsFit};
ghost use Rattle.call_operations.specs.Sets.{AreStubs};
ghost use Rattle.call_operations_laws.specs.Codes.{is_face};
ghost use Rattle.front_end.specs.declared.source.CheckedSource.{CheckedSource};
ghost use Rattle.front_end.specs.Answers.{IsAccepted};

use annot_reader::interfaces_say_what_annotations_say;
use call_operations_laws::generated_stubs_fit;

/// A law: the stubs that are generated of an accepted source fit its code, in whatever cut.
pub fn accepted_stubs_fit()
    ensures { (bytes cut : List ℕ) (c : CheckedSource) (purpose : Purpose) (s : Stubs) →
        IsAccepted bytes cut c → AreStubs purpose c.program.functions c.interface s →
        IsFit purpose c.code (is_face c.interface) s }
{
    interfaces_say_what_annotations_say();
    generated_stubs_fit();
}

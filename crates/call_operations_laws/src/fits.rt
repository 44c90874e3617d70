//! That the stubs of a source fit its code.

ghost use Rattle.std.specs.Prelude.{List};
ghost use Rattle.c_types_program.specs.declared.function.Function.{Function};
ghost use Rattle.c_code.specs.Machine.{Flat};
ghost use Rattle.annot_reader.specs.Interface.{Interface};
ghost use Rattle.stub_operations.specs.declared.purpose.Purpose.{Purpose};
ghost use Rattle.stub_operations.specs.Stubs.{Stubs};
ghost use Rattle.stub_meaning.specs.Fits.{IsFit};
ghost use Rattle.call_operations.specs.Sets.{AreStubs};
ghost use Rattle.call_operations_laws.specs.Codes.{HasFunctions, KeepRules, is_face};

/// A law: the stubs of a source fit its code, where the code has the functions of the source and its annotations keep their rules for
/// the types that the code knows.
pub fn generated_stubs_fit()
    ensures { (purpose : Purpose) (fs : List Function) (i : Interface) (code : Flat) (s : Stubs) →
        AreStubs purpose fs i s → HasFunctions fs code → KeepRules i code →
        IsFit purpose code (is_face i) s }
{}

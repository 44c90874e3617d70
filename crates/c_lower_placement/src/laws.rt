//! What holds of code that is placed as its source says.

ghost use Rattle.std.specs.Prelude.{ℕ, List};
ghost use Rattle.c_code.specs.Laws.{AboveForgets, ReturnsValues};
ghost use Rattle.c_code.specs.Machine.{Flat, callee};
ghost use Rattle.c_code.specs.Typed.{KeepsTypes};
ghost use Rattle.c_code.specs.Valid.{IsSteady, IsValid};
ghost use Rattle.c_types_model.specs.Types.{CType};
ghost use Rattle.c_semantics.specs.Arguments.{ArgumentsAreConverted};
ghost use Rattle.c_semantics.specs.Context.{Source};
ghost use Rattle.c_semantics.specs.Returned.{ResultsAreConverted};
ghost use Rattle.c_lower_placement.specs.Placement.{IsSigOf};
ghost use Rattle.c_lower_placement.specs.Laws.{HasResults, IsEmitted, IsLowered, IsMadeOf, KnowsFunctions, MakesTheMarks, NextAnswersAbove, laid};

/// A law: where the code of each function of a source lies in flat code, the lists of marks that the code can make are
/// exactly those of the source: of each call, each thread, and each thread above the cut.
pub fn lowered_code_makes_the_marks()
    ensures { (s : Source) (code : Flat) → IsLowered s code → MakesTheMarks s code }
{}

/// A law: code that is made construct by construct makes exactly the marks of its source, wherever each function's code
/// stands.
pub fn emitted_code_makes_the_marks()
    ensures { (s : Source) (code : Flat) (sig : CType → ℕ) → IsEmitted s code sig → MakesTheMarks s code }
{}

/// A law: each mark that a thread of the code makes above the cut answers what the code wants there as a function of the thread's
/// marks above the cut so far, newest first, whatever came below.
pub fn next_mark_answers_above()
    ensures { (s : Source) (code : Flat) → ResultsAreConverted s → MakesTheMarks s code →
        NextAnswersAbove s code }
{}

/// A law: in code that holds nothing but the functions of a source, each construct by construct, the depth
/// of the evaluation stack is known at each
/// place, each jump lands within its function, a backward jump on the head of its loop, and each call has
/// one value per parameter.
pub fn emitted_code_is_steady()
    ensures { (s : Source) (code : Flat) (sig : CType → ℕ) (height : ℕ → ℕ) → IsMadeOf s code sig height →
        IsSteady code height }
{}

/// A law: what functions of the code return below the cut are values of their results' types, so that what a thread of the code wants
/// above the cut is a function of its marks there.
pub fn code_of_sources_forgets()
    ensures returns { (s : Source) (code : Flat) → ResultsAreConverted s → MakesTheMarks s code →
        HasResults s code → (t : CType) (sig address : ℕ) (args : List ℕ) → IsSigOf s code t sig →
        ReturnsValues (laid s code) (callee (laid s code) sig address) args }
    ensures forgets { (s : Source) (code : Flat) → ResultsAreConverted s → MakesTheMarks s code →
        HasResults s code → IsValid code → (t : CType) (sig address : ℕ) (args : List ℕ) →
        IsSigOf s code t sig → AboveForgets (laid s code) (callee (laid s code) sig address) args }
{}

/// A law: code that makes the marks of a source, whose functions it knows, keeps types, where the source converts arguments and
/// results: what each thread of it wants carries values of their types, and so does its end.
pub fn code_of_sources_keeps_types()
    ensures { (s : Source) (code : Flat) → ResultsAreConverted s → ArgumentsAreConverted s →
        MakesTheMarks s code → KnowsFunctions s code → KeepsTypes (laid s code) }
{}

//! What threads do while pointers keep to the modes.

ghost use Rattle.std.specs.Prelude.{◌≡◌, ℕ, Bool, true, [], List};
ghost use Rattle.marks.specs.declared.side.Side.{Side};
ghost use Rattle.c_code.specs.Frames.{are_values};
ghost use Rattle.c_types_model.specs.Types.{CType};
ghost use Rattle.c_types_rules.specs.Sources.{params_of};
ghost use Rattle.c_semantics.specs.Context.{Source, shapes_of};
ghost use Rattle.c_semantics.specs.Calls.{thread_above, thread_behaviour};
ghost use Rattle.c_semantics.specs.Arguments.{ArgumentsAreConverted};
ghost use Rattle.c_semantics.specs.Returned.{ResultsAreConverted};
ghost use Rattle.cut_graph_rules.specs.Findings.{AreFindings, Cut, IsAccepted};
ghost use Rattle.cut_graph_laws.specs.Answering.{MarksKeepApart};
ghost use Rattle.cut_graph_laws.specs.Granted.{Grants, WantsAreGranted, flagged};
ghost use Rattle.cut_graph_laws.specs.SoundCut.{IsCutOf, IsThread, SoundCut, StaysWithin};

/// A law: while pointers keep to the modes, a thread wants only what the bodies of functions that may run there mention.
pub fn wants_are_granted()
    ensures threads { (s : Source) (may touches writes : Side → ℕ → Bool) →
        Grants s (flagged may touches writes) → (t : CType) (address : ℕ) (args : List ℕ) →
        WantsAreGranted s (flagged may touches writes) (thread_behaviour s t address args) }
    ensures above { (s : Source) (may touches writes : Side → ℕ → Bool) →
        Grants s (flagged may touches writes) →
        WantsAreGranted s (flagged may touches writes) (thread_above s) }
{}

/// A law: a cut without findings is accepted.
pub fn cuts_without_findings_are_accepted()
    ensures { (c : Cut) → AreFindings c [] → IsAccepted c }
{}

/// A law: an accepted cut of a source is sound.
pub fn accepted_cuts_are_sound()
    ensures { (s : Source) (c : Cut) → IsCutOf s c → IsAccepted c → SoundCut s c (IsThread s) }
{}

/// A law: each mark of a right list answers what was expected, so that an accepted cut keeps marks apart: no global is that of marks on
/// both sides, and of one that stores it.
pub fn marks_keep_apart()
    ensures { (s : Source) (c : Cut) → IsCutOf s c → IsAccepted c → MarksKeepApart c (IsThread s) }
{}

/// A law: where the source converts results and arguments, as each typed source does, each thread that begins with values of its types
/// stays within an accepted cut.
pub fn threads_stay_within()
    ensures { (s : Source) (c : Cut) → IsCutOf s c → IsAccepted c → ResultsAreConverted s →
        ArgumentsAreConverted s → (t : CType) (address : ℕ) (args : List ℕ) →
        are_values (shapes_of (params_of t)) args ≡ true →
        StaysWithin c (thread_behaviour s t address args) }
{}

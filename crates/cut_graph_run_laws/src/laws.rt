//! Accepted cuts of a source are sound for its code.

ghost use Rattle.std.specs.Prelude.{◌≡◌, ℕ, Bool, true, List};
ghost use Rattle.marks.specs.declared.side.Side.{Side};
ghost use Rattle.marks.specs.Bytes.{Byte};
ghost use Rattle.marks.specs.Marks.{Mark};
ghost use Rattle.c_code.specs.Frames.{are_values};
ghost use Rattle.c_code.specs.Machine.{Flat};
ghost use Rattle.c_code.specs.MarkLists.{thread_lists};
ghost use Rattle.c_code.specs.Valid.{IsValid};
ghost use Rattle.c_types_model.specs.Types.{CType};
ghost use Rattle.c_types_rules.specs.Sources.{params_of};
ghost use Rattle.c_semantics.specs.Reading.{Marks};
ghost use Rattle.c_semantics.specs.Context.{Source, shapes_of};
ghost use Rattle.c_semantics.specs.Returned.{ResultsAreConverted};
ghost use Rattle.c_semantics.specs.Arguments.{ArgumentsAreConverted};
ghost use Rattle.c_lower_placement.specs.Laws.{MakesTheMarks, laid};
ghost use Rattle.c_lower_placement.specs.Placement.{IsSigOf};
ghost use Rattle.replay_runs.specs.Interface.{Interface};
ghost use Rattle.replay_runs.specs.Laws.{IsReplayRun, fresh};
ghost use Rattle.cut_graph_rules.specs.Findings.{Cut, IsAccepted};
ghost use Rattle.cut_graph_laws.specs.Answering.{MarksKeepApart};
ghost use Rattle.cut_graph_laws.specs.Granted.{Grants, WantsAreGranted, flagged};
ghost use Rattle.cut_graph_laws.specs.SoundCut.{IsCutOf, SoundCut, StaysWithin};
ghost use Rattle.cut_graph_run_laws.specs.Code.{IsCodeThread, IsWanting};
ghost use Rattle.cut_graph_run_laws.specs.Replays.{KeepsTo, RunStaysAbove, program_of};

/// A law: an accepted cut of a source is sound for the threads of code that makes the marks of the source. Where the source converts
/// results and arguments, each such thread that begins with values of its types stays within the cut.
pub fn code_keeps_the_cut()
    ensures sound { (s : Source) (code : Flat) → MakesTheMarks s code → (c : Cut) → IsCutOf s c →
        IsAccepted c → SoundCut s c (IsCodeThread s code) }
    ensures within { (s : Source) (code : Flat) → MakesTheMarks s code → (c : Cut) → IsCutOf s c →
        IsAccepted c → ResultsAreConverted s → ArgumentsAreConverted s → (t : CType) (sig address : ℕ)
        (args : List ℕ) → IsSigOf s code t sig → are_values (shapes_of (params_of t)) args ≡ true →
        StaysWithin c (thread_lists (laid s code) sig address args) }
    ensures granted { (s : Source) (code : Flat) → MakesTheMarks s code →
        (may touches writes : Side → ℕ → Bool) → Grants s (flagged may touches writes) → (p : Marks) →
        IsCodeThread s code p → WantsAreGranted s (flagged may touches writes) p }
{}

/// A law: it keeps the marks of such code apart: no global is that of marks on both sides, and of one that stores it.
pub fn marks_of_code_keep_apart()
    ensures { (s : Source) (code : Flat) → MakesTheMarks s code → (c : Cut) → IsCutOf s c → IsAccepted c →
        MarksKeepApart c (IsCodeThread s code) }
{}

/// A law: it is sound for what such code wants above the cut as a function of the marks there, whatever marks come.
pub fn wants_above_keep_the_cut()
    ensures { (s : Source) (code : Flat) → MakesTheMarks s code → IsValid code → (c : Cut) → IsCutOf s c →
        IsAccepted c → SoundCut s c (IsWanting (laid s code)) }
{}

/// A law: in a replay run whose interface keeps to an accepted cut, pointers keep to its modes by the rules of runs, so that no thread wants
/// anything above the cut but what the functions that may run there mention.
pub fn replay_runs_keep_the_cut()
    ensures { (s : Source) (code : Flat) → MakesTheMarks s code → IsValid code → (c : Cut) → IsCutOf s c →
        IsAccepted c → (i : Interface) → KeepsTo i c → (memory : ℕ → Byte) (run : List Mark) →
        IsReplayRun (program_of i (laid s code)) (fresh memory) run →
        RunStaysAbove s c (laid s code) memory run }
{}

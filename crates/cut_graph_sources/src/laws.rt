//! The cut of a right source, and what its threads do.

ghost use Rattle.std.specs.Prelude.{◌≡◌, ℕ, true, [], List, map};
ghost use Rattle.marks.specs.Bytes.{Byte};
ghost use Rattle.marks.specs.Marks.{Mark};
ghost use Rattle.memory_map.specs.declared.placed.Placed.{Placed};
ghost use Rattle.c_code.specs.Frames.{are_values};
ghost use Rattle.c_code.specs.MarkLists.{thread_lists};
ghost use Rattle.c_code.specs.Valid.{IsValid};
ghost use Rattle.c_types_model.specs.Types.{CType};
ghost use Rattle.c_types_rules.specs.Sources.{Program, params_of};
ghost use Rattle.c_types_program.specs.Programs.{texts_in};
ghost use Rattle.annot_reader_rules.specs.Notes.{Annotated};
ghost use Rattle.c_semantics.specs.Context.{Source, shapes_of};
ghost use Rattle.c_semantics.specs.Calls.{thread_behaviour};
ghost use Rattle.c_lower_placement.specs.Laws.{laid};
ghost use Rattle.c_lower_placement.specs.Placement.{IsSigOf};
ghost use Rattle.replay_runs.specs.Interface.{Interface};
ghost use Rattle.replay_runs.specs.Laws.{IsReplayRun, fresh};
ghost use Rattle.isolation_check_rules.specs.Places.{IsPlaced, Literal, source_of};
ghost use Rattle.lockset_check_rules.specs.declared.finding.LockFinding.{LockFinding};
ghost use Rattle.cut_graph_rules.specs.Findings.{IsAccepted};
ghost use Rattle.cut_graph_laws.specs.Answering.{MarksKeepApart};
ghost use Rattle.cut_graph_laws.specs.SoundCut.{IsCutOf, IsThread, SoundCut, StaysWithin};
ghost use Rattle.cut_graph_run_laws.specs.Code.{IsCodeThread, IsWanting};
ghost use Rattle.cut_graph_run_laws.specs.Replays.{KeepsTo, RunStaysAbove, program_of};
ghost use Rattle.front_end.specs.declared.source.CheckedSource.{CheckedSource};
ghost use Rattle.front_end.specs.Answers as front;
ghost use Rattle.cut_check.specs.Lines.{FindingsOf, FoundText, LockFindingsOf};
ghost use Rattle.cut_check.specs.Sources.{Says, cut_of};
ghost use Rattle.cut_graph_sources.specs.Sources.{HasAcceptedCut, IsAcceptedAs, IsLaidOut, IsSaid};

use c_lower_laws::typed_programs_fit;
use c_semantics::results_are_converted;
use cut_graph_laws::{accepted_cuts_are_sound, marks_keep_apart, threads_stay_within};
use cut_graph_run_laws::{
    code_keeps_the_cut, marks_of_code_keep_apart, replay_runs_keep_the_cut,
    wants_above_keep_the_cut,
};

/// A law: a source that the front end accepts is right.
pub fn accepted_sources_are_right()
    ensures { (bytes cut : List ℕ) (c : CheckedSource) → front.IsAccepted bytes cut c → IsSaid bytes cut }
{}

/// A law: the cut of a right source is one of the source. The function with which a run begins is the first that is named `main`, and has
/// a body, since no two functions of a source have one name.
pub fn cuts_are_of_their_sources()
    ensures { (bytes cut : List ℕ) (p : Program) (a : Annotated) → Says bytes cut p a → (s : Source) →
        IsLaidOut cut p a s → IsCutOf s (cut_of cut p a) }
{}

/// A law: a right source whose objects lie as its cut says has the interface of the cut. An accepted one, whose strings and globals
/// are placed so, is such a source.
pub fn placed_sources_are_of_their_cuts()
    ensures right { (bytes cut : List ℕ) (p : Program) (a : Annotated) → Says bytes cut p a →
        (ls : List Literal) (q : Placed) → IsPlaced (cut_of cut p a) ls q →
        IsLaidOut cut p a (source_of p ls q) }
    ensures accepted { (bytes cut : List ℕ) (c : CheckedSource) (p : Program) (a : Annotated) →
        front.IsAccepted bytes cut c → Says bytes cut p a → IsAccepted (cut_of cut p a) →
        (ls : List Literal) (q : Placed) → map (λ l. l.from) ls ≡ texts_in c.program.texts →
        IsPlaced (cut_of cut p a) ls q → IsAcceptedAs bytes cut c p a (source_of p ls q) }
{}

/// A law: the cut of a right source is accepted where nothing is found in it: no line is printed, or lines of guards alone.
pub fn cuts_without_lines_are_accepted()
    ensures cut { (bytes cut : List ℕ) (p : Program) (a : Annotated) → Says bytes cut p a →
        FindingsOf bytes cut [] → IsAccepted (cut_of cut p a) }
    ensures guards { (bytes cut : List ℕ) (p : Program) (a : Annotated) → Says bytes cut p a →
        (xs : List LockFinding) → LockFindingsOf bytes cut xs → IsAccepted (cut_of cut p a) }
    ensures text { (bytes cut : List ℕ) (p : Program) (a : Annotated) → Says bytes cut p a →
        FoundText bytes cut [] → IsAccepted (cut_of cut p a) }
{}

/// A law: an accepted cut of a right source is sound for the threads of the source, and keeps their marks apart. Each thread that begins
/// with values of its types stays within it.
pub fn sources_keep_the_cut()
    ensures sound { (bytes cut : List ℕ) (p : Program) (a : Annotated) (s : Source) →
        HasAcceptedCut bytes cut p a s → SoundCut s (cut_of cut p a) (IsThread s) }
    ensures apart { (bytes cut : List ℕ) (p : Program) (a : Annotated) (s : Source) →
        HasAcceptedCut bytes cut p a s → MarksKeepApart (cut_of cut p a) (IsThread s) }
    ensures within { (bytes cut : List ℕ) (c : CheckedSource) (p : Program) (a : Annotated) (s : Source) →
        IsAcceptedAs bytes cut c p a s → (t : CType) (address : ℕ) (args : List ℕ) →
        are_values (shapes_of (params_of t)) args ≡ true →
        StaysWithin (cut_of cut p a) (thread_behaviour s t address args) }
{
    accepted_cuts_are_sound();
    marks_keep_apart();
    results_are_converted();
    typed_programs_fit();
    threads_stay_within();
}

/// A law: the same of the threads of its flat code, of what the code wants above the cut whatever marks come, and of replay runs of it.
pub fn code_of_sources_keeps_the_cut()
    ensures sound { (bytes cut : List ℕ) (c : CheckedSource) (p : Program) (a : Annotated) (s : Source) →
        IsAcceptedAs bytes cut c p a s → SoundCut s (cut_of cut p a) (IsCodeThread s c.code) }
    ensures apart { (bytes cut : List ℕ) (c : CheckedSource) (p : Program) (a : Annotated) (s : Source) →
        IsAcceptedAs bytes cut c p a s → MarksKeepApart (cut_of cut p a) (IsCodeThread s c.code) }
    ensures within { (bytes cut : List ℕ) (c : CheckedSource) (p : Program) (a : Annotated) (s : Source) →
        IsAcceptedAs bytes cut c p a s → (t : CType) (sig address : ℕ) (args : List ℕ) →
        IsSigOf s c.code t sig → are_values (shapes_of (params_of t)) args ≡ true →
        StaysWithin (cut_of cut p a) (thread_lists (laid s c.code) sig address args) }
    ensures wants { (bytes cut : List ℕ) (c : CheckedSource) (p : Program) (a : Annotated) (s : Source) →
        IsAcceptedAs bytes cut c p a s → IsValid c.code →
        SoundCut s (cut_of cut p a) (IsWanting (laid s c.code)) }
    ensures replays { (bytes cut : List ℕ) (c : CheckedSource) (p : Program) (a : Annotated) (s : Source) →
        IsAcceptedAs bytes cut c p a s → IsValid c.code → (i : Interface) → KeepsTo i (cut_of cut p a) →
        (memory : ℕ → Byte) (run : List Mark) →
        IsReplayRun (program_of i (laid s c.code)) (fresh memory) run →
        RunStaysAbove s (cut_of cut p a) (laid s c.code) memory run }
{
    results_are_converted();
    typed_programs_fit();
    code_keeps_the_cut();
    marks_of_code_keep_apart();
    wants_above_keep_the_cut();
    replay_runs_keep_the_cut();
}

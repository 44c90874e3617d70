//! The laws, as contracts of functions that do nothing.

ghost use Rattle.std.specs.Prelude.{◌≡◌, ◌↔◌, ℕ, Bool, List, Option, length};
ghost use Rattle.marks.specs.declared.side.Side.{Side};
ghost use Rattle.marks.specs.Marks.{Mark};
ghost use Rattle.marks.specs.Opens.{open_calls, open_ups};
ghost use Rattle.replay_runs.specs.Runs.{Link, byte, marks_of, new_events, steps_since};
ghost use Rattle.replay_runs.specs.Threads.{Returned, fault_of, last_return};
ghost use Rattle.replay_runs.specs.Pool.{blocks, in_use, is_registered};
ghost use Rattle.replay_runs.specs.Known.{known};
ghost use Rattle.replay_runs.specs.Checks.{Races};
ghost use Rattle.whole_runs.specs.World.{World, begin};
ghost use Rattle.whole_runs.specs.Sides.{frames_on, seen};
ghost use Rattle.whole_runs.specs.Memory.{real};
ghost use Rattle.whole_runs.specs.Below.{prepared_below, system_blocks};
ghost use Rattle.whole_runs.specs.Outcomes.{holder, outcomes, started, used};
ghost use Rattle.reference_recorder_marks.specs.Marks.{without_origins};

/// Memory above the cut and of both sides, frames, the blocks of both pools, the regions of keys, and what is registered.
pub fn memory_has_no_origins()
    ensures above { (w : World) (x : ℕ) (p : List Mark) →
        byte (begin w) x (seen (without_origins p)) ≡ byte (begin w) x (seen p) }
    ensures both { (w : World) (x : ℕ) (p : List Mark) → real w (without_origins p) x ≡ real w p x }
    ensures frames { (w : World) (side : Side) (t : ℕ) (p : List Mark) →
        frames_on w side t (without_origins p) ≡ frames_on w side t p }
    ensures pool { (w : World) (p : List Mark) →
        blocks (begin w) (seen (without_origins p)) ≡ blocks (begin w) (seen p) }
    ensures pool_below { (p : List Mark) → system_blocks (without_origins p) ≡ system_blocks p }
    ensures region { (w : World) (k : ℕ) (p : List Mark) →
        in_use (begin w) k (seen (without_origins p)) ≡ in_use (begin w) k (seen p) }
    ensures prepared { (w : World) (k : ℕ) (p : List Mark) →
        prepared_below w k (without_origins p) ≡ prepared_below w k p }
    ensures registered { (w : World) (f : ℕ) (p : List Mark) →
        is_registered (begin w) f (seen (without_origins p)) ≡ is_registered (begin w) f (seen p) }
{}

/// What calls came to, how many threads were started and answers used, who holds a mutex, and how many marks there are.
pub fn calls_have_no_origins()
    ensures results { (p : List Mark) → outcomes (without_origins p) ≡ outcomes p }
    ensures threads { (p : List Mark) → started (without_origins p) ≡ started p }
    ensures answers { (f : ℕ) (p : List Mark) → used f (without_origins p) ≡ used f p }
    ensures mutexes { (k : ℕ) (p : List Mark) → holder k (without_origins p) ≡ holder k p }
    ensures count { (p : List Mark) → length (without_origins p) ≡ length p }
{}

/// The events with a link, above the cut and of all marks, and how many of each thread's events an event with a link knows.
pub fn events_have_no_origins()
    ensures above { (l : Link) (p : List Mark) →
        new_events l (seen (without_origins p)) ≡ new_events l (seen p) }
    ensures all { (l : Link) (p : List Mark) → new_events l (without_origins p) ≡ new_events l p }
    ensures knowledge { (l : Link) (t : ℕ) (p : List Mark) →
        known (seen (without_origins p)) l t ≡ known (seen p) l t }
{}

/// Of a thread's marks above the cut: its open calls and Ups, its steps since its last event, its fault, and its last return of a
/// function.
pub fn open_calls_have_no_origins()
    ensures calls { (w : World) (t : ℕ) (p : List Mark) →
        open_calls (marks_of (begin w) t (seen (without_origins p))) ≡
        open_calls (marks_of (begin w) t (seen p)) }
    ensures ups { (w : World) (t : ℕ) (p : List Mark) →
        open_ups (marks_of (begin w) t (seen (without_origins p))) ≡
        open_ups (marks_of (begin w) t (seen p)) }
    ensures steps { (w : World) (t : ℕ) (p : List Mark) →
        steps_since (marks_of (begin w) t (seen (without_origins p))) ≡
        steps_since (marks_of (begin w) t (seen p)) }
    ensures fault { (w : World) (t : ℕ) (p : List Mark) →
        fault_of (marks_of (begin w) t (seen (without_origins p))) ≡
        fault_of (marks_of (begin w) t (seen p)) }
    ensures returned { (w : World) (before : Option Returned) (f t : ℕ) (p : List Mark) →
        last_return before f (marks_of (begin w) t (seen (without_origins p))) ≡
        last_return before f (marks_of (begin w) t (seen p)) }
{}

/// Which earlier accesses of a byte by another thread race with one of this thread.
pub fn races_have_no_origins()
    ensures { (t : ℕ) (write : Bool) (x u : ℕ) (p : List Mark) →
        Races (seen (without_origins p)) t write x u ↔ Races (seen p) t write x u }
{}

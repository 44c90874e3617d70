//! The law of threads.

ghost use Rattle.std.specs.Prelude.{◌≡◌, ℕ, Bool, List, []};
ghost use Rattle.c_types_model.specs.Types.{CType};
ghost use Rattle.c_semantics.specs.Calls.{thread_behaviour};
ghost use Rattle.c_semantics.specs.Context.{Source};
ghost use Rattle.c_semantics.specs.Reading.{Marks};
ghost use Rattle.c_code.specs.Machine.{Flat};
ghost use Rattle.c_lower_placement.specs.Laws.{MakesTheMarks};
ghost use Rattle.lockset_check_rules.specs.Guards.{Guarded};
ghost use Rattle.lockset_check_rules.specs.Sources.{source_found};
ghost use Rattle.lockset_check_threads.specs.Laws.{AccessesAreOrdered, CodeKeepsLocks, GuardsAreHeld, IsGuarded, LocksAreKept};

/// A law: in a source where nothing is found, at every access of a guarded global the thread holds the mutex, and it took it on
/// that side of the cut; and it unlocks on either side only what it took there.
pub fn threads_keep_their_locks()
    ensures { (r : Guarded) (s : Source) (runs : ℕ → Bool) → IsGuarded r s → source_found r runs ≡ [] →
        (t : CType) (address : ℕ) (args : List ℕ) → LocksAreKept r runs (thread_behaviour s t address args) }
{}

/// A law: so does code that makes the marks of such a source.
pub fn code_keeps_its_locks()
    ensures { (r : Guarded) (s : Source) (runs : ℕ → Bool) → IsGuarded r s → source_found r runs ≡ [] →
        (code : Flat) → MakesTheMarks s code → CodeKeepsLocks r runs s code }
{}

/// A law: where threads keep their locks, and mutexes are taken only while no thread holds them, their marks keep the guards.
pub fn guards_are_held()
    ensures { (r : Guarded) (runs : ℕ → Bool) (behaviours : ℕ → Marks) →
        ((t : ℕ) → LocksAreKept r runs (behaviours t)) → GuardsAreHeld r runs behaviours }
{}

/// A law: so two accesses above the cut of one guarded global by two threads are ordered (happens-before after Lamport 1978).
pub fn accesses_are_ordered()
    ensures { (r : Guarded) (runs : ℕ → Bool) (behaviours : ℕ → Marks) →
        ((t : ℕ) → LocksAreKept r runs (behaviours t)) → AccessesAreOrdered r runs behaviours }
{}

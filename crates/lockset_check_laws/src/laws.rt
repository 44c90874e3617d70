//! The laws of mutexes. Each holds for any code and any list of marks.

ghost use Rattle.std.specs.Prelude.{ℕ, Option};
ghost use Rattle.lockset_check_laws.specs.Locks.{LockCalls};
ghost use Rattle.lockset_check_laws.specs.Held.{HeldWantsAreEnough};
ghost use Rattle.lockset_check_laws.specs.Order.{CountedMarksRise, ExclusiveLocksAreHeld, GuardTellsOfAccesses, GuardedAccessesAreOrdered};
ghost use Rattle.lockset_check_laws.specs.Examples.{NumbersMustRise, SomeGuardsAreKept, SystemCodeDropsItsOwn};

/// Where a mutex is taken only while no thread holds it, what a thread has taken it holds, and it takes nothing twice.
pub fn exclusive_locks_are_held()
    ensures { (l : LockCalls) → ExclusiveLocksAreHeld l }
{}

/// A thread that has taken the guard of a global above the cut knows each earlier access of the global there by the
/// other threads.
pub fn guard_tells_of_accesses()
    ensures { (l : LockCalls) (guard : ℕ → Option ℕ) → GuardTellsOfAccesses l guard }
{}

/// Two accesses above the cut of one guarded global by two threads are ordered.
pub fn guarded_accesses_are_ordered()
    ensures { (l : LockCalls) (guard : ℕ → Option ℕ) → GuardedAccessesAreOrdered l guard }
{}

/// It is enough that each mark answers a want that keeps the guards.
pub fn held_wants_are_enough()
    ensures { (l : LockCalls) (guard : ℕ → Option ℕ) → HeldWantsAreEnough l guard }
{}

/// Marks that have the numbers of their threads' events before them rise.
pub fn counted_marks_rise()
    ensures { CountedMarksRise }
{}

/// The rules can be kept where two threads touch one global.
pub fn some_guards_are_kept()
    ensures { SomeGuardsAreKept }
{}

/// And each thread's marks must be numbered in their order.
pub fn numbers_must_rise()
    ensures { NumbersMustRise }
{}

/// And code below the cut must not unlock what was locked above it.
pub fn system_code_drops_its_own()
    ensures { SystemCodeDropsItsOwn }
{}

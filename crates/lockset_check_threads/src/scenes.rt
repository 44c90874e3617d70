//! Small sources and marks of their threads, computed.

ghost use Rattle.lockset_check_threads.specs.Examples.{MutexesMustBeFree, PointersMustHoldNothing, SomeLocksAreKept, TwoThreadsTouch};

/// The law isn't one of nothing: in a source in which nothing is found, a thread that runs well comes to a guarded write.
pub fn some_locks_are_kept()
    ensures { SomeLocksAreKept }
{}

/// No pointer may reach a function whose callers hold a mutex.
pub fn pointers_must_hold_nothing()
    ensures { PointersMustHoldNothing }
{}

/// A thread must take a mutex only where it hasn't taken it.
pub fn mutexes_must_be_free()
    ensures { MutexesMustBeFree }
{}

/// The law of accesses isn't one of nothing: two threads of such a source touch a guarded global one after the other.
pub fn two_threads_touch()
    ensures { TwoThreadsTouch }
{}

//! That the threads of a source without findings of locksets keep their locks: definitions, and the law over the semantics.
#![tactic(auto)]

mod laws;
mod scenes;

pub use laws::{
    accesses_are_ordered, code_keeps_its_locks, guards_are_held, threads_keep_their_locks,
};
pub use scenes::{
    mutexes_must_be_free, pointers_must_hold_nothing, some_locks_are_kept, two_threads_touch,
};

//! Which mutexes are held at each place of a source, and where that breaks the discipline of its guards.
#![tactic(auto)]

mod finding;
mod mention;

pub use finding::LockFinding;
pub use mention::Mention;

//! What is done at the calls of functions of an interface, and sets of such stubs.
#![tactic(auto)]

mod builtins;
mod laws;
mod operation;
mod purpose;
mod stubs;

pub use builtins::builtin_operations;
pub use laws::operations_come_in_order;
pub use operation::StubOp;
pub use purpose::Purpose;
pub use stubs::{Operations, StubSet};

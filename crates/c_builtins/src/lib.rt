//! The functions that every source may call without declaring them.
#![tactic(auto)]

mod builtin;
mod laws;
mod lookup;
mod table;

pub use builtin::{Builtin, BuiltinType};
pub use laws::builtins_are_listed;
pub use lookup::{BUILTINS, FIRST_SOURCE_FUNCTION, is_reserved};

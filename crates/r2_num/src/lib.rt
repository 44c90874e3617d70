//! The integer kinds of the language and their arithmetic (C11 6.2.5, 6.3.1 and 6.5), in values of any size up to 128 bits.
#![tactic(auto)]

mod conversions;
mod kinds;
mod operations;

pub use conversions::{common, pattern, promote, wrap};
pub use kinds::IntKind;
pub use operations::{Arith, Op, binary};

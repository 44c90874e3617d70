//! The code of a typed program.
#![tactic(auto)]

mod depth;
mod error;
mod functions;
mod lowering;
mod shapes;
mod wide;

pub use error::LowerError;
pub use lowering::lower;

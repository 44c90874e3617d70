//! The types of C sources: whole sources, and what they are as typed programs (C11 6.9).
#![tactic(auto)]

mod declarations;
mod error;
mod extents;
mod functions;
mod globals;
mod limits;
mod members;
mod signature;
mod structs;
mod tags;
mod texts;
mod whole;

pub use error::{CheckError, Which};
pub use whole::check;

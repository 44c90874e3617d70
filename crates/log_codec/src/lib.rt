//! Logs as bytes.
#![tactic(auto)]

mod error;
mod fields;
mod kept;
mod kind;
mod laws;
mod lists;
mod parsing;
mod records;
mod tail;
mod writing;

pub use error::LogError;
pub use kept::Kept;
pub use laws::{what_is_put_is_a_log, what_is_put_is_read_again};
pub use parsing::parse;
pub use writing::{put_chunk, put_end, put_head};

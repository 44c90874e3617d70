//! The texts of events: kinds, names, keys, and a line for each.
#![tactic(auto)]

mod kind;
mod line;
mod prepend;
mod texts;

pub use kind::kind_word;
pub use line::{Line, put_lines};
pub use prepend::PrependBuffer;
pub use texts::{put_end, put_name};

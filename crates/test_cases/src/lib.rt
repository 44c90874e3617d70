//! Case files: cases of named lines, and what differs from what they want.
#![tactic(auto)]

mod case;
mod compare;
mod output;
mod reading;

pub use case::{Case, Line};
pub use compare::{difference, no_form};
pub use output::Output;
pub use reading::cases_of;

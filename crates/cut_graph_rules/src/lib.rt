//! What a source mentions, in which modes its functions may run, and what is wrong with a cut: definitions.
#![tactic(auto)]

mod cases;
mod mention;

pub use cases::{
    arrays_that_stand_alone_are_written, functions_are_mentioned_by_name, names_pass_modes_on,
    paths_are_written_at_their_roots,
};
pub use mention::Mention;

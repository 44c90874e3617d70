//! What holds of accepted sources.
#![tactic(auto)]

mod annotations;
mod stubs;

pub use annotations::annotations_speak_of_all;
pub use stubs::accepted_stubs_fit;

//! What holds of the marks of a source whose cut is accepted.
#![tactic(auto)]

mod laws;

pub use laws::{
    accepted_cuts_are_sound, cuts_without_findings_are_accepted, marks_keep_apart,
    threads_stay_within, wants_are_granted,
};

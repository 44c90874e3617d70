//! The numbers of each event above the cut: its steps, its clock, and its keys with their tickets.
#![tactic(auto)]

mod laws;
mod stamps;

pub use laws::{
    faults_leave_the_stamps, keyless_events_follow_their_thread, keys_of_events_are_distinct,
    plain_marks_are_stamped, stamps_are_few,
};
pub use stamps::{EventStamp, Stamps};

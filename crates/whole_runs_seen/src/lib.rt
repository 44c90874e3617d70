//! What a replay sees of a whole run.
#![tactic(auto)]

mod laws;

pub use laws::{
    ends_of_runs_are_there, faults_of_runs_can_be_met, runs_are_seen_as_runs,
    steps_are_seen_as_runs, suited_answers_leave_none, suited_answers_lose_no_thread,
    suited_runs_are_of_the_program, suited_threads_end_or_stand,
};

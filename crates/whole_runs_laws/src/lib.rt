//! Laws of whole runs, as contracts of functions that do nothing.
#![tactic(auto)]

mod laws;

pub use laws::{
    faults_are_determined, faults_below_can_be_met, faults_can_be_met, one_run,
    steps_are_determined, steps_make_a_run, tests_decide,
};

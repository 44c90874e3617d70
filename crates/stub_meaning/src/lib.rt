//! What a set of stubs means: what is done in a call, what it gives a run, and when it fits a code.
#![tactic(auto)]

mod scenes;

pub use scenes::{
    callbacks_and_keys_are_those_of_values, regions_have_sizes_of_the_call,
    released_regions_have_keys,
};

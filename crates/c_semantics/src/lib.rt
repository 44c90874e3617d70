//! What a typed source means: the lists of marks that a call of a function can make.
#![tactic(auto)]

mod laws;

pub use laws::{
    end_is_last, next_is_one, prefixes_are_right, replay_part_is_right_above,
    results_are_converted, returns_give_values, want_above_is_one, wants_carry_values,
};

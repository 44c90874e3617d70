//! A small source whose cut is accepted, and marks of it: what they reach, and what a pointer that breaks the modes does.
#![tactic(auto)]

mod scenes;

pub use scenes::{
    code_below_may_be_any, cut_is_accepted, each_kind_of_reach_keeps_the_modes,
    pointers_that_break_modes_break_the_cut,
};

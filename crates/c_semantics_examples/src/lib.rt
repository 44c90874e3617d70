//! The marks of small programs, by the meaning of their sources, shown by computation.
#![tactic(auto)]

mod cases;

pub use cases::{
    a_bad_call, a_call_of_the_interface, a_compound_assignment, a_loop_goes_on,
    a_return_has_its_arguments, a_step_below_the_cut, a_subscript_before_its_array,
    a_thread_begins, a_zero_divisor, code_below_calls_back, loads_are_free, system_code_runs,
};

//! Where the code of a typed source lies in flat code, that it then makes exactly the marks of its source, and that it is
//! code in which the depth of the evaluation stack is known at each place.
#![tactic(auto)]

mod laws;

pub use laws::{
    code_of_sources_keeps_types, emitted_code_is_steady, emitted_code_makes_the_marks,
    lowered_code_makes_the_marks, next_mark_answers_above,
};

//! What small sources mention, and which of their functions may run where, by the definitions, shown by computation.
#![tactic(auto)]

mod arrays;
mod modes;
mod names;
mod writes;

pub use arrays::arrays_that_stand_alone_are_written;
pub use modes::{externals_are_named_as_functions_are, names_pass_modes_on, values_pass_modes_on};
pub use names::{names_are_mentioned, unevaluated_names_are_mentioned, values_name_functions};
pub use writes::paths_are_written_at_their_roots;

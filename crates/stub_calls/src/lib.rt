//! What a set of stubs does at one call, computed into buffers that are kept from call to call.
#![tactic(auto)]

mod done;
mod keys;
mod laws;
mod said;
mod sizes;

pub use done::Done;
pub use laws::{caching_is_of_the_function, keys_are_of_arguments};
pub use said::{Committing, Prepared};

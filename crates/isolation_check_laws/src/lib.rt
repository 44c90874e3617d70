//! That strings and globals lie in their areas.
#![tactic(auto)]

mod laws;

pub use laws::{globals_lie_in_their_areas, strings_lie_among_constants, typed_globals_fit};

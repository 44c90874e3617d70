//! Where the globals and strings of an accepted source lie, and what their bytes are before a run: definitions.
#![tactic(auto)]

mod area;
mod cases;

pub use area::{Area, Ends};
pub use cases::{
    each_area_has_a_row, scalars_have_their_bytes, strings_lie_one_after_another, the_rest_is_zero,
};

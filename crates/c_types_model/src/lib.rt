//! The types of the C profile: which there are, and the sizes, alignments and offsets of their objects.
#![tactic(auto)]

mod extent;
mod laws;
mod layout;
mod offsets;

pub use extent::Extent;
pub use laws::{large_sizes_stay_large, offsets_are_least_multiples};
pub use layout::{Layout, Limit, lay_out};
pub use offsets::Offsets;

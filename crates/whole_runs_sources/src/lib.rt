//! That what a recording of an accepted source is given fits.
#![tactic(auto)]

mod code;
mod cuts;
mod file;
mod modes;
mod objects;
mod stubs;
mod worlds;

pub use code::{accepted_code_fits, accepted_sources_have_few_functions};
pub use cuts::accepted_sources_run_under_their_cuts;
pub use file::read_files_fit_their_sources;
pub use modes::accepted_code_keeps_modes;
pub use objects::accepted_objects_are_placed;
pub use stubs::placed_stubs_fit;
pub use worlds::accepted_sources_fit;

//! Where the strings and globals of an accepted cut lie, with their bytes before a run.
#![tactic(auto)]

mod accepted;
mod areas;
mod cases;
mod error;
mod globals;
mod objects;
mod placing;
mod rows;
mod strings;

pub use accepted::place;
pub use cases::globals_lie_by_who_mentions_them;
pub use error::PlaceError;
pub use placing::places_of;

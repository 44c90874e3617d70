//! A table of types that name each other by number.
#![tactic(auto)]

mod ids;
mod laws;
mod same;
mod table;
mod tag;
mod ty;

pub use ids::{StructId, TypeId, TypeIds};
pub use laws::large_sizes_stay_large;
pub use table::Types;
pub use tag::Tag;
pub use ty::Ty;

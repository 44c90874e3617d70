//! The bytes that globals have before a run.
#![tactic(auto)]

mod addresses;
mod buffer;
mod images;
mod members;

pub use addresses::Addresses;

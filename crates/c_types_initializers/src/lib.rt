//! The values of globals, which are known before a run begins (C11 6.7.9).
#![tactic(auto)]

mod addresses;
mod initials;
mod known;
mod strings;

pub use initials::initial;

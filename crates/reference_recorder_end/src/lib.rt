//! The end of the reference recorder: the Stops of the threads of a run, and what is told of it, made anew from all its marks.
#![tactic(auto)]

mod end;
mod stops;
mod told;

pub use end::finish;

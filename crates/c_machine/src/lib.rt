//! One simulated thread of flat code, run one mark at a time.
#![tactic(auto)]

mod accesses;
mod act;
mod act_call;
mod answered;
mod begin;
mod calls;
mod edits;
mod feed;
mod going;
mod laws;
mod look;
mod make;
mod opens;
mod operators;
mod outcome;
mod passing;
mod passing_numbers;
mod places;
mod position;
mod readers;
mod run;
mod settle;
mod state;
mod thread;
mod tops;
mod tries;
mod waits;
mod wants;

pub use accesses::Accesses;
pub use calls::start_of;
pub use laws::{each_call_is_marks, each_mark_is_followed};
pub use readers::is_call_of;
pub use thread::Thread;
pub use wants::{Answer, Want};

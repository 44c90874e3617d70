//! The system below the cut: which thread steps next, mutexes, threads, and the answers of a system file.
#![tactic(auto)]

mod answer_list;
mod answers;
mod file;
mod lists;
mod mask;
mod system;
mod threads;
mod turns;

pub use answer_list::{Answer, Answers, AnswersSoFar};
pub use file::{Scripted, SysFile};
pub use lists::Schedule;
pub use system::System;
pub use threads::Wait;

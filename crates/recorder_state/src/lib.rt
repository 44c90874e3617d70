//! The state of a recording, what comes next, and what the state is told of each step.
#![tactic(auto)]

mod begin;
mod inputs;
mod known;
mod next;
mod prepared;
mod state;
mod stop;
mod telling;
mod turn;

pub use begin::main_of;
pub use inputs::Inputs;
pub use known::Known;
pub use prepared::PreparedBelow;
pub use state::RunState;
pub use stop::Stop;
pub use turn::Turn;

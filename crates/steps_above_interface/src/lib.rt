//! What steps above the cut need to know of the functions of the interface: which are registered, and what each thread's last
//! return of one gave.
#![tactic(auto)]

mod laws;
mod pieces;
mod state;

pub use laws::{other_marks_leave_the_state, records_show_returns, shown_returns_are_told};
pub use state::InterfaceState;

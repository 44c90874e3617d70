//! What a run shows: its report.
#![tactic(auto)]

mod crossings;
mod ends;
mod events;
mod lines;
mod memory;
mod parts;
mod reporting;
mod values;

pub use call_inspector_run::{Records, Run, Threads};
pub use ends::Shown;
pub use parts::ReportParts;
pub use reporting::report;

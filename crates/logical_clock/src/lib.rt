//! The clock and the tickets of each event of a run (Lamport 1978), as the events are made. The words for events are those of
//! `run_events`, and are brought in here.
#![tactic(auto)]

mod clocks;
mod keys;
mod name;

pub use clocks::Clocks;
pub use keys::Counted;
pub use name::{KeyName, name_of};
pub use run_events::{
    Bytes, Class, Event, EventName, Key, KeyMark, LOG_THREADS, Marks, Pieces, Reason, Record,
    Stamp, Words,
};

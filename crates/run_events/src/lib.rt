//! What a recorded run is made of: events, the keys that order them, and their records in a log.
#![tactic(auto)]

mod event;
mod key;
mod marks;
mod pieces;
mod tickets;
mod words;

pub use event::{Event, EventName, LOG_THREADS, Reason, Record, Stamp};
pub use key::{Class, Key, KeyMark};
pub use marks::{Marks, UnpackedMarks};
pub use pieces::{Bytes, Pieces};
pub use words::{UnpackedWords, Words};

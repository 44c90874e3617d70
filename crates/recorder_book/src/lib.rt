//! The book of a recording: the records of its events by thread, and the log that they make.
#![tactic(auto)]

mod book;
mod chunks;
mod laws;
mod room;
mod sizes;

pub use book::{Book, Finished};
pub use laws::{
    books_stay_small, full_records_have_their_size, plain_marks_keep_the_book, stops_are_short,
};
pub use room::Room;
pub use sizes::{event_size, record_size};

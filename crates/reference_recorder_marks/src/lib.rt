//! Marks as data, field for field those in which contracts speak of runs, and what one of them says: for bodies that go over all marks
//! so far at each step.
#![tactic(auto)]

mod bytes;
mod events;
mod lists;
mod mark;
mod ranges;

pub use bytes::{
    granted, is_brought, is_constant, is_released, late, place, reads, touches, within, writes,
};
pub use events::{
    clock_of, counts, has_key, is_above, is_below, is_event, keys_of, same_key, ticket_of,
};
pub use lists::{Piece, PieceList, PreparedList, RangeList, WordList};
pub use mark::{Access, Act, Commit, Event, EventKind, Mark};
pub use ranges::{any_piece, any_prepared, any_range, byte_at};

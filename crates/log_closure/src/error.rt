//! Why a log's events are refused.

ghost use Rattle.std.specs.Prelude.{◌≡◌};
ghost use Rattle.log_closure.specs.declared.error.OrderError.TheVariants.{Memory};

use run_events::EventName;
use std::alloc::{AllocError, AllocFailed};
use thiserror::Error;

/// What is wrong with the first event, in file order, that doesn't fit the others.
#[derive(Clone, Copy, Debug, Error)]
pub enum OrderError {
    /// One of its keys stands with its ticket at an earlier event of the file, or twice in it.
    #[error("log twice {}.{}", .0.thread, .0.index)]
    Twice(EventName),
    /// The log is whole, and one of its keys has a ticket above 0, but no event has the key with the ticket before.
    #[error("log missing {}.{}", .0.thread, .0.index)]
    Missing(EventName),
    /// Its direct predecessors are all there, and its clock isn't 1 plus the greatest of theirs, or 1 where it has none.
    #[error("log clock {}.{}", .0.thread, .0.index)]
    Clock(EventName),
    /// There was no memory for the tables of the check.
    #[error("memory")]
    Memory,
}

impl From<AllocError> for OrderError {
    ghost from_gives = { λ _ e. e ≡ Memory };

    fn from(_e: AllocError) -> OrderError {
        OrderError::Memory
    }
}

impl<T: Drop> From<AllocFailed<T>> for OrderError {
    ghost from_gives = { λ _ e. e ≡ Memory };

    fn from(_e: AllocFailed<T>) -> OrderError {
        OrderError::Memory
    }
}

//! Why bytes are refused.

ghost use Rattle.std.specs.Prelude.{◌≡◌};
ghost use Rattle.log_codec.specs.declared.error.LogError.TheVariants.{Memory};

use std::alloc::{AllocError, AllocFailed};
use thiserror::Error;

/// Why bytes are not read as a log.
#[derive(Clone, Copy, Debug, Error)]
pub enum LogError {
    /// The byte at this place, from 0, is the first wrong one: a log text begins with the bytes
    /// before it, and none with it too.
    #[error("log byte {0}")]
    BadByte(u64),
    /// There was no memory for the records.
    #[error("memory")]
    Memory,
}

impl From<AllocError> for LogError {
    ghost from_gives = { λ _ e. e ≡ Memory };

    fn from(_e: AllocError) -> LogError {
        LogError::Memory
    }
}

impl<T: Drop> From<AllocFailed<T>> for LogError {
    ghost from_gives = { λ _ e. e ≡ Memory };

    fn from(_e: AllocFailed<T>) -> LogError {
        LogError::Memory
    }
}

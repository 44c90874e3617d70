//! Why an access isn't taken.

use thiserror::Error;

/// Why an access isn't taken.
#[derive(Clone, Copy, Debug, PartialEq, Eq, Error)]
pub enum WatchError {
    /// An earlier access of the byte at `addr` by the thread `other` isn't ordered before this one, and one of them
    /// writes. These are the least such byte, and for it the least such thread.
    #[error("a race with thread {other} at {addr}")]
    Race { other: u8, addr: u64 },
    /// There is no memory for one more access.
    #[error("no memory")]
    Memory,
}

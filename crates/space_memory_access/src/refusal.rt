// Why a step is refused.
ghost use Rattle.std.specs.Prelude.{◌≡◌};

use thiserror::Error;

/// Why an access to memory, or a call on its regions, is refused. `addr` is the least byte that is to blame, the first
/// byte of a frame that doesn't fit or of a region of the wrong size, or the key.
#[derive(Clone, Copy, Debug, PartialEq, Eq, Error)]
pub enum Refusal {
    /// The byte is in no live object.
    #[error("notlive {addr}")]
    NotLive { addr: u64 },
    /// Replay code touches a byte that is to be written below the cut.
    #[error("pending {addr}")]
    Pending { addr: u64 },
    /// Replay code touches system memory, or system code touches replay memory without right.
    #[error("otherspace {addr}")]
    OtherSpace { addr: u64 },
    /// A constant is written.
    #[error("readonly {addr}")]
    ReadOnly { addr: u64 },
    /// The frame doesn't fit in the stack, or too many frames are in use.
    #[error("stackfull {addr}")]
    StackFull { addr: u64 },
    /// The key is in use.
    #[error("keyinuse {addr}")]
    KeyInUse { addr: u64 },
    /// No region is prepared under the key.
    #[error("nokey {addr}")]
    NoKey { addr: u64 },
    /// The used size is above the capacity, or a byte past it was changed.
    #[error("size {addr}")]
    Size { addr: u64 },
}

impl Refusal {
    ghost use Rattle.space_memory_access.specs.Refusals.{number, address};

    /// The number of the cause, 1 to 8.
    pub fn number(self) -> u8
        ensures { result ≡ number self }
    {
        match self {
            Refusal::NotLive { .. } => 1,
            Refusal::Pending { .. } => 2,
            Refusal::OtherSpace { .. } => 3,
            Refusal::ReadOnly { .. } => 4,
            Refusal::StackFull { .. } => 5,
            Refusal::KeyInUse { .. } => 6,
            Refusal::NoKey { .. } => 7,
            Refusal::Size { .. } => 8,
        }
    }

    /// The address or key that is shown.
    pub fn addr(self) -> u64
        ensures { result ≡ address self }
    {
        match self {
            Refusal::NotLive { addr }
            | Refusal::Pending { addr }
            | Refusal::OtherSpace { addr }
            | Refusal::ReadOnly { addr }
            | Refusal::StackFull { addr }
            | Refusal::KeyInUse { addr }
            | Refusal::NoKey { addr }
            | Refusal::Size { addr } => addr,
        }
    }
}

// Why a region isn't held.
ghost use Rattle.std.specs.Prelude.{◌≡◌};
ghost use Rattle.space_memory.specs.declared.error.HoldError.TheVariants.{Memory, Refused};

use space_memory_access::Refusal;
use std::alloc::{AllocError, AllocFailed};
use thiserror::Error;

/// Why a region isn't held or prepared.
#[derive(Clone, Copy, Debug, PartialEq, Eq, Error)]
pub enum HoldError {
    /// The access or the key is refused.
    #[error("{0}")]
    Refused(Refusal),
    /// There was no memory for the region.
    #[error("memory")]
    Memory,
}

impl From<Refusal> for HoldError {
    ghost from_gives = { λ r e. e ≡ Refused r };

    fn from(refusal: Refusal) -> HoldError {
        HoldError::Refused(refusal)
    }
}

impl From<AllocError> for HoldError {
    ghost from_gives = { λ _ e. e ≡ Memory };

    fn from(_e: AllocError) -> HoldError {
        HoldError::Memory
    }
}

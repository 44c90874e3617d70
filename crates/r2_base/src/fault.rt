//! Why the outside refused a call.

ghost use Rattle.std.specs.Prelude.{◌≡◌};
ghost use Rattle.r2_base.specs.declared.fault.Fault.TheVariants.{Memory};

use std::alloc::{AllocError, AllocFailed};
use thiserror::Error;

/// Why the outside refused a call.
#[derive(Clone, Copy, Debug, Error)]
pub enum Fault {
    /// It did not do it, and its count of faults rose.
    #[error("failed")]
    Failed,
    /// The name that was to be read isn't there.
    #[error("missing")]
    Missing,
    /// There was no memory for it.
    #[error("no memory")]
    Memory,
}

impl From<AllocError> for Fault {
    ghost from_gives = { λ _ e. e ≡ Memory };

    fn from(_e: AllocError) -> Fault {
        Fault::Memory
    }
}

impl<T: Drop> From<AllocFailed<T>> for Fault {
    ghost from_gives = { λ _ e. e ≡ Memory };

    fn from(_e: AllocFailed<T>) -> Fault {
        Fault::Memory
    }
}

//! Why reading stopped.

ghost use Rattle.std.specs.Prelude.{◌≡◌};
ghost use Rattle.byte_format.specs.declared.stop.Stop.TheVariants.{Memory};

use std::alloc::{AllocError, AllocFailed};

/// Why a reader stopped before it had its value.
#[derive(Clone, Copy)]
pub enum Stop {
    /// There was no memory for the value.
    Memory,
    /// The bytes end where more have to come.
    Short,
    /// A byte is wrong. It is counted from the end: so many bytes are left from it on, itself
    /// counted, so that readers pass the number on as it is.
    Wrong(usize),
}

impl From<AllocError> for Stop {
    ghost from_gives = { λ _ e. e ≡ Memory };

    fn from(_e: AllocError) -> Stop {
        Stop::Memory
    }
}

impl<T: Drop> From<AllocFailed<T>> for Stop {
    ghost from_gives = { λ _ e. e ≡ Memory };

    fn from(_e: AllocFailed<T>) -> Stop {
        Stop::Memory
    }
}

//! Why there is no code.

ghost use Rattle.std.specs.Prelude.{◌≡◌};
ghost use Rattle.c_lower.specs.declared.error.LowerError.TheVariants.{Memory};

use std::alloc::AllocError;
use thiserror::Error;

/// Why a program has no code.
#[derive(Debug, Drop, Error)]
pub enum LowerError {
    /// There is no memory.
    #[error("out of memory")]
    Memory,
    /// The source has more than 131,072 nodes.
    #[error("too many nodes")]
    Long,
    /// The evaluation stack is deeper than 64 values in the function of this number, the first such.
    #[error("the evaluation stack is too deep in function {0}")]
    Wide(u16),
}

impl From<AllocError> for LowerError {
    ghost from_gives = { λ _ e. e ≡ Memory };

    fn from(_: AllocError) -> LowerError {
        LowerError::Memory
    }
}

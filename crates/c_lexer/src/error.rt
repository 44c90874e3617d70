// Why a source isn't tokens.

ghost use Rattle.std.specs.Prelude.{◌≡◌};
ghost use Rattle.c_lexer.specs.Lexing.{error_at};
ghost use Rattle.c_lexer.specs.declared.error.LexError.TheVariants.{Memory};

use crate::item::Fault;
use std::alloc::{AllocError, AllocFailed};
use thiserror::Error;

/// Why a source isn't tokens. Each error but `Memory` has an offset in the source.
#[derive(Clone, Copy, Debug, Error)]
pub enum LexError {
    /// A byte that begins no token or doesn't fit in the one that it stands in, or a number that
    /// isn't spelled as one.
    #[error("byte {0} belongs to no token")]
    BadByte(u32),
    /// A comment, character or string, from this offset on, that isn't closed.
    #[error("the text at byte {0} isn't closed")]
    OpenText(u32),
    /// A number that its types can't hold.
    #[error("the number at byte {0} is too big")]
    BigNumber(u32),
    /// A line that begins with this `#` and is no line marker.
    #[error("the line at byte {0} is no line marker")]
    Directive(u32),
    /// Out of memory.
    #[error("no memory")]
    Memory,
}

impl LexError {
    /// The error of a fault at this offset.
    pub(crate) fn new(fault: Fault, at: u32) -> LexError
        ensures { result ≡ error_at fault at }
    {
        match fault {
            Fault::BadByte => LexError::BadByte(at),
            Fault::OpenText => LexError::OpenText(at),
            Fault::BigNumber => LexError::BigNumber(at),
            Fault::Directive => LexError::Directive(at),
        }
    }
}

impl From<AllocError> for LexError {
    ghost from_gives = { λ _ e. e ≡ Memory };

    fn from(_error: AllocError) -> LexError {
        LexError::Memory
    }
}

impl<T: Drop> From<AllocFailed<T>> for LexError {
    ghost from_gives = { λ _ e. e ≡ Memory };

    fn from(_error: AllocFailed<T>) -> LexError {
        LexError::Memory
    }
}

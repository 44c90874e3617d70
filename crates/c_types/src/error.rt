//! Why a source has no typed program.

ghost use Rattle.std.specs.Prelude.{◌≡◌};
ghost use Rattle.c_types.specs.Errors.{by_type_error};

use c_types_operators::TypeError;
use std::alloc::AllocError;
use thiserror::Error;

/// A limit that a source may exceed.
#[derive(Clone, Copy, Debug, PartialEq, Eq)]
pub enum Which {
    /// More than 1,000 functions.
    Functions,
    /// More than 8 parameters of a function.
    Params,
    /// More than 64 members of a struct.
    Members,
    /// More than 1,048,576 bytes of an object.
    Object,
    /// More than 1,048,576 bytes of all globals in one row.
    Globals,
    /// More than 32,768 bytes of the parameters and locals of a function.
    Frame,
}

/// Why a source has no typed program.
#[derive(Debug, Drop, Error)]
pub enum CheckError {
    /// The node at this offset breaks this rule.
    #[error("the node at {0} breaks rule {1}")]
    Rule(u32, u8),
    /// The source keeps all rules, and exceeds this limit, but none that stands before it in the list.
    #[error("the source is too large: {0:?}")]
    Limit(Which),
    /// Also where a source would have 2^32 nodes or types or more, which no number names.
    #[error("out of memory")]
    Memory,
}

impl From<AllocError> for CheckError {
    ghost use Rattle.c_types.specs.declared.error.CheckError.TheVariants.{Memory};

    ghost from_gives = { λ _ e. e ≡ Memory };

    fn from(error: AllocError) -> Self {
        let _ = error;
        CheckError::Memory
    }
}

impl From<TypeError> for CheckError {
    ghost from_gives = { λ x e. e ≡ by_type_error x };

    fn from(error: TypeError) -> Self {
        match error {
            TypeError::Rule(from, rule) => CheckError::Rule(from, rule),
            TypeError::Memory => CheckError::Memory,
        }
    }
}

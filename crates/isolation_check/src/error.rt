//! Why a cut isn't accepted.

ghost use Rattle.std.specs.Prelude.{◌≡◌};

use isolation_check_findings::Finding;
use std::alloc::AllocError;
use std::fmt;
use thiserror::Error;

/// Why a cut isn't accepted, as far as is known.
#[derive(Drop, Error)]
pub enum PlaceError<'a> {
    /// All that is wrong with it, in the order of the bytes of the lines, each once.
    #[error("the cut isn't accepted")]
    Findings(Vec<Finding<'a>>),
    #[error("out of memory")]
    Memory,
}

impl fmt::Debug for PlaceError<'_> {
    fn fmt<W: fmt::Write>(&self, f: &mut fmt::Formatter<W>) -> fmt::Result {
        match self {
            PlaceError::Findings(found) => write!(f, "Findings({})", found.len()),
            PlaceError::Memory => write!(f, "Memory"),
        }
    }
}

impl From<AllocError> for PlaceError<'_> {
    ghost use Rattle.isolation_check.specs.declared.error.PlaceError.TheVariants.{Memory};

    ghost from_gives = { λ _ e. e ≡ Memory };

    fn from(error: AllocError) -> Self {
        let _ = error;
        PlaceError::Memory
    }
}

//! Why a source is refused.

ghost use Rattle.std.specs.Prelude.{◌≡◌};

use lockset_check_rules::LockFinding;
use std::alloc::AllocError;
use std::fmt;
use thiserror::Error;

/// Why a source doesn't keep the discipline of its guards, as far as is known.
#[derive(Drop, Error)]
pub enum GuardError {
    /// All places that break it, by offset and then by the text of their lines, each once.
    #[error("guarded names aren't held")]
    Findings(Vec<LockFinding>),
    #[error("out of memory")]
    Memory,
}

impl fmt::Debug for GuardError {
    fn fmt<W: fmt::Write>(&self, f: &mut fmt::Formatter<W>) -> fmt::Result {
        match self {
            GuardError::Findings(found) => write!(f, "Findings({})", found.len()),
            GuardError::Memory => write!(f, "Memory"),
        }
    }
}

impl From<AllocError> for GuardError {
    ghost use Rattle.lockset_check.specs.declared.error.GuardError.TheVariants.{Memory};

    ghost from_gives = { λ _ e. e ≡ Memory };

    fn from(error: AllocError) -> Self {
        let _ = error;
        GuardError::Memory
    }
}

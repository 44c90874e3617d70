//! Why a file is refused.

ghost use Rattle.std.specs.Prelude.{◌≡◌};
ghost use Rattle.sys_script_lines.specs.declared.error.ScriptError.TheVariants.{Memory as NoScript};
ghost use Rattle.sys_script_lines.specs.declared.error.Wrong.TheVariants.{Memory};
ghost use Rattle.sys_script_lines.specs.Says.{error_at};

use std::alloc::{AllocError, AllocFailed};
use thiserror::Error;

/// Why a file is not read as a system file.
#[derive(Clone, Copy, Debug, Error)]
pub enum ScriptError {
    /// The line with this number, from 1, is the first that says nothing that it may say there.
    #[error("system line {0}")]
    Line(u32),
    /// There was no memory for what the file says.
    #[error("memory")]
    Memory,
}

impl From<AllocError> for ScriptError {
    ghost from_gives = { λ _ e. e ≡ NoScript };

    fn from(_e: AllocError) -> ScriptError {
        ScriptError::Memory
    }
}

impl<T: Drop> From<AllocFailed<T>> for ScriptError {
    ghost from_gives = { λ _ e. e ≡ NoScript };

    fn from(_e: AllocFailed<T>) -> ScriptError {
        ScriptError::Memory
    }
}

/// Why a line, or a part of it, is not read.
#[derive(Clone, Copy)]
pub(crate) enum Wrong {
    /// It says nothing that it may say.
    Text,
    /// There was no memory for what it says.
    Memory,
}

impl From<AllocError> for Wrong {
    ghost from_gives = { λ _ e. e ≡ Memory };

    fn from(_e: AllocError) -> Wrong {
        Wrong::Memory
    }
}

impl<T: Drop> From<AllocFailed<T>> for Wrong {
    ghost from_gives = { λ _ e. e ≡ Memory };

    fn from(_e: AllocFailed<T>) -> Wrong {
        Wrong::Memory
    }
}

impl Wrong {
    /// The error of a file in whose line this is wrong.
    pub(crate) fn at(self, line: u32) -> ScriptError
        ensures { result ≡ error_at line self }
    {
        match self {
            Wrong::Text => ScriptError::Line(line),
            Wrong::Memory => ScriptError::Memory,
        }
    }
}

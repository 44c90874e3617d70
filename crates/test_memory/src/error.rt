// Why a line of a script makes no call.

use std::alloc::{AllocError, AllocFailed};

/// Why a line of a script makes no call.
#[derive(Clone, Copy)]
pub enum LineError {
    /// It names none, or has other words than the call takes.
    NoForm,
    /// Memory ran out.
    Memory,
}

impl From<AllocError> for LineError {
    fn from(_e: AllocError) -> LineError {
        LineError::Memory
    }
}

impl<T: Drop> From<AllocFailed<T>> for LineError {
    fn from(_e: AllocFailed<T>) -> LineError {
        LineError::Memory
    }
}

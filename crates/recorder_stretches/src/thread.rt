//! The only thread of a run.

/// Its number.
pub(crate) const FIRST: u8 = 0;

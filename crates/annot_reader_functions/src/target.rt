//! What parameters point to.

/// What the parameter points to whose declaration is at this offset.
#[derive(Clone, Copy)]
pub struct Target {
    pub from: u32,
    /// Its size in bytes, where its type is complete.
    pub size: Option<u64>,
}

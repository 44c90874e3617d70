//! The two modes that a thread runs in.

/// Whether code stands above the cut or below it.
#[derive(Clone, Copy, PartialEq, Eq)]
pub enum Side {
    /// Above the cut: what is recorded, and runs again in a replay.
    Replay,
    /// Below the cut: what a replay takes from the log.
    System,
}

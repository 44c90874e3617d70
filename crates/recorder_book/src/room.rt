//! Whether one more event is one of the run.

/// Whether there is room for one more event.
#[derive(Clone, Copy)]
pub enum Room {
    /// It is one of the run.
    Free,
    /// It would be one event too many.
    Events,
    /// Its record would have too many bytes.
    Full,
}

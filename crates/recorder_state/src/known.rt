//! What is known of the code of a thread.

use recorder_threads::Next;

/// What the code of a thread comes to.
#[derive(Clone, Copy)]
pub struct Known {
    pub thread: u8,
    pub next: Next,
}

//! What a run has come to.

use memory_map::Placed;
use reference_recorder_marks::Mark;

/// What a run has come to: the objects that it began with, and its marks so far, the oldest first.
#[derive(Clone, Copy)]
pub struct Past<'a> {
    pub placed: &'a Placed,
    pub marks: &'a [Mark],
}

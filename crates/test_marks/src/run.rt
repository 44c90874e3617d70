// Runs of one thread.

use crate::image::{Image, image_of};
use crate::steps::drive;
use crate::track::Track;
use c_code::Side;
use front_end::SourceError;
use std::alloc::Global;

/// What becomes of a call that the code of its thread alone doesn't settle.
#[derive(Clone, Copy)]
pub enum Below<'a> {
    /// The function of the interface, the external or the builtin gives this.
    Gives(u64),
    /// The body of the function of the interface runs in system mode.
    Runs,
    /// What runs below the call calls this function back with one argument, and the call goes on.
    CallsBack(&'a str, u64),
    /// The function that system code calls through an address is called back. Without this, it is called as
    /// any other.
    GoesUp,
}

/// A call of a function of a source as the first one of a thread.
#[derive(Drop)]
pub struct Run<'a> {
    pub func: &'a str,
    pub args: Vec<u64>,
    pub side: Side,
    /// What becomes of calls, in their order.
    pub below: Vec<Below<'a>>,
}

/// The words for the marks of the thread: up to its end, to a fault, to a call for which `below` has no
/// answer (`stuck`) or no depth is left (`full`), or to a great number of marks (`..`).
pub fn marks_of(alloc: Global, source: &str, run: &Run<'_>) -> Result<String, SourceError> {
    let image = image_of(alloc, source)?;
    marks_in(alloc, &image, run)
}

/// The same for the source that the image is of.
fn marks_in(alloc: Global, image: &Image, run: &Run<'_>) -> Result<String, SourceError> {
    let mut track = Track::new(alloc, image, &run.below);
    drive(alloc, image, &mut track, run)?;
    Ok(track.finish()?)
}

//! The access that is tested.

use marks::Range;

/// An access that is to be tested for races: its bytes, and whether it writes them.
#[derive(Clone, Copy)]
pub struct Tested {
    pub range: Range,
    pub write: bool,
}

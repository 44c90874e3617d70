//! What a step comes to.

use reference_recorder_marks::{PieceList, RangeList};

/// What the mark of a step carries besides its function and its arguments.
#[derive(Drop)]
pub struct Carried {
    pub result: u64,
    pub ins: PieceList,
    pub pieces: PieceList,
    pub freed: RangeList,
}

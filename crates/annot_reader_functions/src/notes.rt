//! What is said of a function.

use annot_reader_words::Annots;
use c_syntax::SharedSeq;

/// What the annotations of a function and of its parameters say, where a cut is looked for.
#[derive(Drop)]
pub struct FunctionNotes {
    /// It is in the interface of the cut.
    pub in_cut: bool,
    pub annots: Annots,
    /// The mutexes that its callers hold, in order, each a value of int. Functions of which the same is said may share the list.
    pub holds: SharedSeq<i64>,
}

//! The kinds of operations that parameters give.

/// A kind of operations that parameters give.
#[derive(Clone, Copy)]
pub(crate) enum OperationKind {
    Read,
    Hold,
    Prepare,
    Register,
    KeyAtCall,
    KeyAtReturn,
}

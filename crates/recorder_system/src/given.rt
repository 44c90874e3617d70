//! What calls are given.

/// What the call of a builtin or external comes to.
#[derive(Clone, Copy)]
pub enum Given {
    /// The pool says it.
    ByPool,
    /// It has this result, and writes nothing.
    Value(u64),
    /// It has the result and the pieces of the answer at this place in the answers of the file.
    Answer(usize),
    /// The file has no more answers of the function.
    NoMore,
}

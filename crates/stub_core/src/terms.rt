//! How the size of a region is written.

/// A factor of a size.
#[derive(Clone, Copy)]
pub enum Term {
    /// A number.
    Const(u64),
    /// The argument at this place, from 0.
    Param(u8),
    /// The result of the call.
    Return,
}

/// A size in bytes: one term, or the product of two.
#[derive(Clone, Copy)]
pub struct Size {
    pub a: Term,
    pub b: Option<Term>,
}

//! What annotations say.

use c_syntax::Seq;
use stub_core::Size;

/// What the annotations of a parameter say. Sizes are in bytes.
#[derive(Clone, Copy)]
pub struct Param {
    /// How many bytes are read of what it points to.
    pub reads: Option<Size>,
    /// The capacity of what is written, and the size that is used of it.
    pub writes: Option<(Size, Size)>,
    /// The parameter that is the key of what is written later, from 0, and its capacity.
    pub prepares: Option<(u8, Size)>,
    /// It is a function that may be called back.
    pub callback: bool,
}

/// What the annotations of a function say of its calls.
#[derive(Drop)]
pub struct Annots {
    /// Its parameters, in order.
    pub params: Seq<Param>,
    /// The parameters whose values are keys of its call and return, from 0.
    pub sync: Seq<u8>,
    /// The parameter that is the key of what it releases, from 0, and the size that is used of it.
    pub commit: Option<(u8, Size)>,
    /// Equal results are written once.
    pub cache: bool,
}

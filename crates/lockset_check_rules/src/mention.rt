//! Names of globals where they stand.

/// A global where it is named: the offset of the name in bytes, and the place of the global in the order of the source.
#[derive(Clone, Copy)]
pub struct Mention {
    pub from: u32,
    pub place: u32,
}

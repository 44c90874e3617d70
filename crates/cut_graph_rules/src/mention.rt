//! What a part of a source mentions.

/// A function or a global that is named in a source, or a global that is written by its name.
///
/// Functions go by number, builtins too; globals go by place, from 0, in the order of the source.
#[derive(Clone, Copy)]
pub enum Mention {
    Function(u32),
    Global(u32),
    /// Beside the mention of its name.
    Written(u32),
}

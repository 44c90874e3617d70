//! What names mean.

use c_types_table::TypeId;

/// What a name means, with its type.
#[derive(Clone, Copy)]
pub enum Meaning {
    /// The function of this number; those of a source are numbered from 16 on, in the order of their first declarations.
    Function(u32, TypeId),
    /// The global of this place, in the order of the source.
    Global(u32, TypeId),
    /// The parameter or local of this place: first the parameters and then all locals of the function, in the order of the source.
    Local(u32, TypeId),
}

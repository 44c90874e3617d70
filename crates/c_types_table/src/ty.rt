//! Types.

use crate::ids::{StructId, TypeId, TypeIds};
use crate::tag::Tag;
use r2_num::IntKind;

/// A type, with its parts by their numbers in a table (C11 6.2.5).
#[derive(PartialEq, Eq, Drop)]
#[derive_where(Hash)]
pub enum Ty {
    Void,
    Int(#[derive_where(skip(Hash))] IntKind),
    /// A pointer, with its target.
    Pointer(TypeId),
    /// An array, with its element and its length.
    Array(TypeId, u64),
    /// A struct that the source defines.
    Struct(StructId),
    /// A struct that the source never defines, by its tag (C11 6.7.2.3, 6 and 8).
    UndefinedStruct(Tag),
    Function { result: TypeId, params: TypeIds },
}

//! Globals and their values before a run.

use c_lexer::Text;
use c_types_nodes::NodeIds;
use c_types_table::TypeId;

/// What a scalar has before a run: a number, or an address.
#[derive(Clone, Copy)]
pub enum Known {
    Number(i128),
    /// That of the string at this offset of the source.
    AddressOfText(u32),
    /// That of the global of this place.
    AddressOfGlobal(u32),
    /// That of the function of this number, which is named at this offset.
    AddressOfFunction { from: u32, number: u32 },
}

/// What an object has before a run (C11 6.7.9); what isn't given is zero.
#[derive(Drop)]
pub enum Initial {
    Scalar(Known),
    /// The bytes of an array of `char`.
    Bytes(Text),
    /// The first elements or members.
    Listed(Vec<Initial>),
}

/// A global, its value where the source gives one, and what stands unevaluated in that value, as in a `Body`.
#[derive(Drop)]
pub struct Global {
    pub name: Text,
    pub ty: TypeId,
    pub value: Option<Initial>,
    pub unevaluated: NodeIds,
}

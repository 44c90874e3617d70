//! Nodes with their types.

use crate::node::Node;
use c_types_table::TypeId;
use std::mem::size_of;

/// A node, and the type that what it stands for has before it is converted.
#[derive(Drop)]
pub struct Entry {
    pub node: Node,
    pub ty: TypeId,
}

// A table of a large source is mostly nodes.
const _: () = prove!(size_of::<Entry>() <= 32);

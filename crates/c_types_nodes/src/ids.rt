//! Names of nodes.

ghost use Rattle.std.specs.Prelude.{◌≡◌, List, IfOk};
ghost use Rattle.c_types_nodes.specs.declared.ids.NodeId.{NodeId};

use std::alloc::{AllocError, Global};
use std::marker::Model;

/// Names a node of a table.
#[derive(Clone, Copy)]
pub struct NodeId(pub u32);

/// Nodes of a table. Contracts see the list of their numbers.
#[derive(Drop)]
pub struct NodeIds {
    items: Vec<NodeId>,
}

impl Model for NodeIds {
    ghost use Rattle.std.specs.Prelude.{List};
    ghost use Rattle.c_types_nodes.specs.declared.ids.NodeId.{NodeId};

    ghost Value = { List NodeId };

    ghost view = { λ l. l.items.items };
}

impl NodeIds {
    /// The nodes, in order.
    pub fn as_slice(&self) -> &[NodeId]
        ensures { result.now ≡ self.now }
    {
        &self.items
    }
}

impl From<Vec<NodeId>> for NodeIds {
    ghost from_gives = { λ v l. l ≡ v.items };

    fn from(items: Vec<NodeId>) -> NodeIds {
        NodeIds { items }
    }
}

/// The arguments of a call. Contracts see the list of their numbers. They lie behind a pointer, since few nodes are calls.
#[derive(Drop)]
pub struct Arguments {
    ids: Box<Vec<NodeId>>,
}

impl Model for Arguments {
    ghost use Rattle.std.specs.Prelude.{List};
    ghost use Rattle.c_types_nodes.specs.declared.ids.NodeId.{NodeId};

    ghost Value = { List NodeId };

    ghost view = { λ a. a.ids.value.items };
}

impl Arguments {
    /// These nodes, in order. `AllocError` where there is no memory.
    pub fn new(alloc: Global, ids: Vec<NodeId>) -> Result<Arguments, AllocError>
        ensures { IfOk result (λ a. a ≡ ids.items) }
    {
        Ok(Arguments {
            ids: Box::new(alloc, ids)?,
        })
    }

    /// The nodes, in order.
    pub fn as_slice(&self) -> &[NodeId]
        ensures { result.now ≡ self.now }
    {
        self.ids.as_slice()
    }
}

// The longest chain of nodes in a piece of a tree.

ghost use Rattle.std.specs.Prelude.{◌≡◌, ℕ, Option};
ghost use Rattle.c_parser_depth.specs.Chains.{no_chain, longer, under, deep_end};

use source_limits::MOST_HOLDERS;

/// The count of nodes at which a chain is too long.
const COUNTED: u8 = MOST_HOLDERS + 2;

/// A longest chain of nodes in a piece of a tree, of which each but the first is held by the one before.
#[derive(Clone, Copy)]
pub struct Chain {
    /// How many nodes it has; 202 stands for more too.
    nodes: u8,
    /// The offset of its last node, where it has one.
    end: u32,
}

impl Chain {
    /// The chain of a piece that has no node.
    pub fn none() -> Self
        ensures { result ≡ no_chain }
    {
        Chain { nodes: 0, end: 0 }
    }

    /// The longer of two chains.
    pub fn longer(self, other: Self) -> Self
        ensures { result ≡ longer self other }
    {
        if self.nodes < other.nodes {
            other
        } else {
            self
        }
    }

    /// The chain below a node at this offset, and that node.
    pub fn under(self, from: u32) -> Self
        ensures { result ≡ under from self }
    {
        match self.nodes {
            0 => Chain {
                nodes: 1,
                end: from,
            },
            nodes if nodes < COUNTED => Chain {
                nodes: nodes + 1,
                end: self.end,
            },
            _ => self,
        }
    }

    /// The offset of the last node, where too many hold it.
    pub fn deep_end(self) -> Option<u32>
        ensures { result ≡ deep_end self }
    {
        (self.nodes >= COUNTED).then_some(self.end)
    }
}

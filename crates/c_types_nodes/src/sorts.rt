//! Whether a node is an object, a function or a value.

ghost use Rattle.c_types_nodes.specs.Sorts.{IsOfSort};
ghost use Rattle.c_types_nodes.specs.Tables.{IsNode};

use crate::forms::ValueSource;
use crate::ids::NodeId;
use crate::table::TypedTable;

/// What an expression is before it is converted (C11 6.3.2.1).
#[derive(Clone, Copy)]
pub enum Sort {
    Object,
    Function,
    Value,
}

impl TypedTable {
    /// What the node of this number is, in constant time.
    pub fn sort_of(&self, id: NodeId) -> Sort
        requires inside { IsNode self.now id }
        ensures { IsOfSort self.now id result }
    {
        match self.get(id).value_source() {
            ValueSource::Read => Sort::Object,
            ValueSource::Address { .. } | ValueSource::Part(_) => Sort::Function,
            ValueSource::Itself => Sort::Value,
        }
    }
}

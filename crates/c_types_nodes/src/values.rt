//! The values that nodes are converted to.

ghost use Rattle.std.specs.Prelude.{◌≡◌, ◌<◌, length, IfOk, Some};
ghost use Rattle.c_types_model.specs.Types.{PointerTo};
ghost use Rattle.c_types_table.specs.Tables.{type_at};
ghost use Rattle.c_types_rules.specs.TypedTree.{AValue, AddressOf, value_of as value_of_typed};
ghost use Rattle.c_types_nodes.specs.Forms.{element_in};
ghost use Rattle.c_types_nodes.specs.Tables.{IsNode, IsObjectAt, Keeps, node_at, object_at, typed_at};

use crate::forms::ValueSource;
use crate::ids::NodeId;
use crate::node::Node;
use crate::table::TypedTable;
use c_types_table::{Ty, TypeId};
use std::alloc::AllocError;

// The element of an array's type.
fn element(ty: &Ty) -> Option<TypeId>
    ensures { result ≡ element_in ty.now }
{
    match ty {
        Ty::Array(element, _) => Some(*element),
        _ => None,
    }
}

impl TypedTable {
    /// The value that an expression has where a value is wanted: what an object holds, the address of an array's first
    /// element, or a function's address (C11 6.3.2.1, 2 to 4).
    ///
    /// `AllocError` where there is no memory, or no number, for one more node.
    pub fn value_of(&mut self, id: NodeId) -> Result<NodeId, AllocError>
        requires inside { IsNode self.old id }
        ensures value { IfOk result (λ v. typed_at self.new v ≡
            Some (AValue (value_of_typed (node_at self.old id)))) }
        ensures kept { Keeps self.old self.new }
    {
        match self.get(id).value_source() {
            ValueSource::Itself => Ok(id),
            ValueSource::Read => self.read(id),
            ValueSource::Address { from, number, ty } => self.add(Node::FunctionAddress {
                from,
                number,
                ty,
            }),
            ValueSource::Part(value) => Ok(value),
        }
    }

    // What an object is converted to.
    fn read(&mut self, id: NodeId) -> Result<NodeId, AllocError>
        requires inside { IsObjectAt self.old id }
        ensures value { IfOk result (λ v. typed_at self.new v ≡
            Some (AValue (value_of_typed (node_at self.old id)))) }
        ensures kept { Keeps self.old self.new }
    {
        match element(self.types().get(self.type_of(id))) {
            Some(element) => self.decay(id, element),
            None => self.add(Node::ReadOf(id)),
        }
    }

    // The address of an array's first element.
    fn decay(&mut self, id: NodeId, element: TypeId) -> Result<NodeId, AllocError>
        requires inside { IsObjectAt self.old id }
        requires element { element.0 < length self.old.types }
        ensures value { IfOk result (λ v. typed_at self.new v ≡
            Some (AValue (AddressOf (object_at self.old id) (PointerTo (type_at self.old.types element))))) }
        ensures kept { Keeps self.old self.new }
    {
        let pointer = self.add_type(Ty::Pointer(element))?;
        self.add(Node::AddressOf(id, pointer))
    }
}

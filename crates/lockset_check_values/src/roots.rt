//! The mentions of globals that paths begin with.

ghost use Rattle.std.specs.Prelude.{◌≡◌, ◌<◌, length};
ghost use Rattle.c_types_table.specs.Tables.{type_at};
ghost use Rattle.c_types_nodes.specs.Tables.{IsObjectAt, IsValueAt, object_at, value_at};
ghost use Rattle.c_types_rules.specs.TypedTree.{object_type};
ghost use Rattle.c_types_rules.specs.TypeTests.{is_scalar, same_type};
ghost use Rattle.lockset_check_rules.specs.Paths.{array_root as array_root_of, decayed, name_alone as name_alone_of, pointed_to as pointed_to_of, root as root_of};

use crate::walker::Walker;
use c_types_nodes::{Node, NodeId, Sum};
use c_types_table::{Ty, TypeId};
use lockset_check_rules::Mention;

impl Walker<'_, '_> {
    /// The global that a path of subscripts, in either order, and members begins with; `None` where it begins with another object.
    #[cycle(roots)]
    pub(crate) fn root(&self, object: NodeId) -> Option<Mention>
        requires { IsObjectAt self.now.program.table object }
        ensures { result ≡ root_of (object_at self.now.program.table object) }
    {
        match self.table().get(object) {
            Node::GlobalObject { from, place, .. } => Some(Mention {
                from: *from,
                place: *place,
            }),
            Node::Element {
                sum: Sum::PointerPlus | Sum::PlusPointer,
                pointer,
                ..
            } => self.array_root(*pointer),
            Node::MemberOf(object, ..) => self.root(*object),
            _ => None,
        }
    }

    // The same of an array that stands for the address of its first element.
    #[cycle(roots)]
    fn array_root(&self, pointer: NodeId) -> Option<Mention>
        requires { IsValueAt self.now.program.table pointer }
        ensures { result ≡ array_root_of (value_at self.now.program.table pointer) }
    {
        match self.table().get(pointer) {
            Node::AddressOf(object, ty) => {
                if self.is_decayed(*object, *ty) {
                    self.root(*object)
                } else {
                    None
                }
            }
            _ => None,
        }
    }

    // Whether two types are equal.
    fn is_same(&self, a: TypeId, b: TypeId) -> bool
        requires left { a.0 < length self.now.program.table.types }
        requires right { b.0 < length self.now.program.table.types }
        ensures { result ≡ same_type (type_at self.now.program.table.types a)
            (type_at self.now.program.table.types b) }
    {
        self.table().types().is_same(a, b)
    }

    // Whether the object is an array, and the type a pointer to its elements.
    fn is_decayed(&self, object: NodeId, ty: TypeId) -> bool
        requires object { IsObjectAt self.now.program.table object }
        requires ty { ty.0 < length self.now.program.table.types }
        ensures { result ≡ decayed (object_type (object_at self.now.program.table object))
            (type_at self.now.program.table.types ty) }
    {
        let types = self.table().types();
        match types.get(self.table().type_of(object)) {
            Ty::Array(element, _) => match types.get(ty) {
                Ty::Pointer(target) => self.is_same(*element, *target),
                _ => false,
            },
            _ => false,
        }
    }

    // The global, where the object is a name alone.
    fn name_alone(&self, object: NodeId) -> Option<Mention>
        requires { IsObjectAt self.now.program.table object }
        ensures { result ≡ name_alone_of (object_at self.now.program.table object) }
    {
        match self.table().get(object) {
            Node::GlobalObject { from, place, .. } => Some(Mention {
                from: *from,
                place: *place,
            }),
            _ => None,
        }
    }

    /// The global to which a pointer is made.
    pub(crate) fn pointed_to(
        &self,
        subscripted: bool,
        object: NodeId,
        ty: TypeId,
    ) -> Option<Mention>
        requires object { IsObjectAt self.now.program.table object }
        requires ty { ty.0 < length self.now.program.table.types }
        ensures { result ≡ pointed_to_of subscripted (object_at self.now.program.table object)
            (type_at self.now.program.table.types ty) }
    {
        if !self.is_decayed(object, ty) {
            self.root(object)
        } else if subscripted {
            None
        } else {
            self.name_alone(object)
        }
    }

    /// Whether an object is scalar.
    pub(crate) fn is_scalar(&self, object: NodeId) -> bool
        requires { IsObjectAt self.now.program.table object }
        ensures { result ≡ is_scalar (object_type (object_at self.now.program.table object)) }
    {
        matches!(
            self.table().types().get(self.table().type_of(object)),
            Ty::Int(_) | Ty::Pointer(_)
        )
    }
}

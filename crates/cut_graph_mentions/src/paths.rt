//! The globals that are written by name.

ghost use Rattle.std.specs.Prelude.{◌≡◌, ◌<◌, length};
ghost use Rattle.c_types_table.specs.Tables.{type_at};
ghost use Rattle.c_types_rules.specs.TypedTree.{object_type};
ghost use Rattle.c_types_rules.specs.TypeTests.{same_type};
ghost use Rattle.c_types_nodes.specs.Tables.{IsObjectAt, IsValueAt, object_at, value_at};
ghost use Rattle.c_semantics.specs.Values.{array_origin as array_origin_of, decayed, origin as origin_of};
ghost use Rattle.cut_graph_rules.specs.Mentions.{named_global, written_under};

use c_types_nodes::{Node, NodeId, Sum, TypedTable};
use c_types_table::{Ty, TypeId, Types};

// Whether two types are equal.
fn are_same(types: &Types, a: TypeId, b: TypeId) -> bool
    requires left { a.0 < length types.now }
    requires right { b.0 < length types.now }
    ensures { result ≡ same_type (type_at types.now a) (type_at types.now b) }
{
    types.is_same(a, b)
}

// Whether the object is an array, and the type a pointer to its elements.
fn is_decayed(table: &TypedTable, object: NodeId, ty: TypeId) -> bool
    requires object { IsObjectAt table.now object }
    requires ty { ty.0 < length table.now.types }
    ensures { result ≡ decayed (object_type (object_at table.now object)) (type_at table.now.types ty) }
{
    let types = table.types();
    match types.get(table.type_of(object)) {
        Ty::Array(element, _) => match types.get(ty) {
            Ty::Pointer(target) => are_same(types, *element, *target),
            _ => false,
        },
        _ => false,
    }
}

/// The global that a path of subscripts, in either order, and members begins with, by its place; `None` where it begins
/// with another object.
#[cycle(origins)]
pub(crate) fn origin(table: &TypedTable, object: NodeId) -> Option<u32>
    requires { IsObjectAt table.now object }
    ensures { result ≡ origin_of (object_at table.now object) }
{
    match table.get(object) {
        Node::GlobalObject { place, .. } => Some(*place),
        Node::Element {
            sum: Sum::PointerPlus | Sum::PlusPointer,
            pointer,
            ..
        } => array_origin(table, *pointer),
        Node::MemberOf(object, ..) => origin(table, *object),
        _ => None,
    }
}

// The same of an array that is converted to the address of its first element.
#[cycle(origins)]
fn array_origin(table: &TypedTable, pointer: NodeId) -> Option<u32>
    requires { IsValueAt table.now pointer }
    ensures { result ≡ array_origin_of (value_at table.now pointer) }
{
    match table.get(pointer) {
        Node::AddressOf(object, ty) => {
            if is_decayed(table, *object, *ty) {
                origin(table, *object)
            } else {
                None
            }
        }
        _ => None,
    }
}

// The global that a name alone designates.
fn global_named(table: &TypedTable, object: NodeId) -> Option<u32>
    requires { IsObjectAt table.now object }
    ensures { result ≡ named_global (object_at table.now object) }
{
    match table.get(object) {
        Node::GlobalObject { place, .. } => Some(*place),
        _ => None,
    }
}

/// The global that is written where the address of an object is taken as a pointer of this type, if any; `counts` says
/// whether the name of an array that stands alone counts there.
pub(crate) fn address_writes(
    table: &TypedTable,
    counts: bool,
    object: NodeId,
    ty: TypeId,
) -> Option<u32>
    requires object { IsObjectAt table.now object }
    requires ty { ty.0 < length table.now.types }
    ensures { result ≡ written_under counts (object_at table.now object) (type_at table.now.types ty) }
{
    if !is_decayed(table, object, ty) {
        origin(table, object)
    } else if counts {
        global_named(table, object)
    } else {
        None
    }
}

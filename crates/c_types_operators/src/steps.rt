//! `++` and `--` (C11 6.5.2.4, 6.5.3.1).

ghost use Rattle.std.specs.Prelude.{◌≡◌, ◌<◌, length};
ghost use Rattle.c_types_rules.specs.Operators.{step as step_by_rules, step_of};
ghost use Rattle.c_types_rules.specs.TypedTree.{object_type};
ghost use Rattle.c_types_table.specs.Tables.{type_at};
ghost use Rattle.c_types_nodes.specs.Parts.{given_in, way_in};
ghost use Rattle.c_types_nodes.specs.Tables.{IsNode, IsObjectAt, Keeps, node_at, object_at};
ghost use Rattle.c_types_operators.specs.Answers.{Agrees, IsAt};
ghost use Rattle.c_types_operators.specs.Scalars.{step_in};

use crate::error::TypeError;
use crate::queries::{Scalar, scalar_in, size_of};
use c_types_model::Extent;
use c_types_nodes::{Given, Node, NodeId, Sort, TypedTable, Way};
use c_types_table::TypeId;

// By how much an object of this type changes: an integer by 1, a pointer to a complete object by the object's size in bytes;
// `None` of any other type.
fn step_size(table: &TypedTable, structs: &[Extent], ty: TypeId) -> Option<u64>
    requires { ty.0 < length table.now.types }
    ensures { result ≡ step_in structs.now (type_at table.now.types ty) }
{
    match scalar_in(table, ty)? {
        Scalar::Integer(_) => Some(1),
        Scalar::Pointer(target) => size_of(table, structs, target),
    }
}

// `++` or `--` of an object.
fn stepped(
    table: &mut TypedTable,
    structs: &[Extent],
    from: u32,
    way: Way,
    given: Given,
    object: NodeId,
) -> Result<NodeId, TypeError>
    requires { IsObjectAt table.old object }
    ensures agrees { Agrees (IsAt table.new) (step_of structs.now from (way_in way) (given_in given)
        (object_at table.old object) (object_type (object_at table.old object))) result }
    ensures kept { Keeps table.old table.new }
{
    let Some(size) = step_size(table, structs, table.type_of(object)) else {
        return Err(TypeError::Rule(from, 8));
    };
    Ok(table.add(Node::Stepped {
        object,
        way,
        given,
        size,
    })?)
}

/// What `++` or `--` makes of its operand: the value that is given is the new one where the sign stands before the operand, and
/// the old one where it stands after.
///
/// `structs` has the extents of the structs that are defined, by number. `Rule` names the rule that the node at `from`
/// breaks.
pub fn step(
    table: &mut TypedTable,
    structs: &[Extent],
    from: u32,
    way: Way,
    given: Given,
    operand: NodeId,
) -> Result<NodeId, TypeError>
    requires { IsNode table.old operand }
    ensures agrees { Agrees (IsAt table.new) (step_by_rules structs.now from (way_in way) (given_in given)
        (node_at table.old operand)) result }
    ensures kept { Keeps table.old table.new }
{
    match table.sort_of(operand) {
        Sort::Object => stepped(table, structs, from, way, given, operand),
        Sort::Function | Sort::Value => Err(TypeError::Rule(from, 8)),
    }
}

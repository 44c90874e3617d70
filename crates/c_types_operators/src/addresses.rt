//! `&` before an operand (C11 6.5.3.2, 1 and 3).

ghost use Rattle.std.specs.Prelude.{◌≡◌, IfOk};
ghost use Rattle.c_types_model.specs.Types.{PointerTo};
ghost use Rattle.c_types_rules.specs.Expressions.{address as address_by_rules};
ghost use Rattle.c_types_rules.specs.TypedTree.{AddressOf, object_type};
ghost use Rattle.c_types_nodes.specs.Tables.{IsNode, IsObjectAt, Keeps, node_at, object_at};
ghost use Rattle.c_types_operators.specs.Answers.{Agrees, IsAt, StandsAt};

use crate::error::TypeError;
use c_types_nodes::{Node, NodeId, Sort, TypedTable};
use c_types_table::Ty;
use std::alloc::AllocError;

// The address of an object.
fn of_object(table: &mut TypedTable, object: NodeId) -> Result<NodeId, AllocError>
    requires { IsObjectAt table.old object }
    ensures added { IfOk result (IsAt table.new
        (AddressOf (object_at table.old object) (PointerTo (object_type (object_at table.old object))))) }
    ensures kept { Keeps table.old table.new }
{
    let target = table.type_of(object);
    let pointer = table.add_type(Ty::Pointer(target))?;
    table.add(Node::AddressOf(object, pointer))
}

/// The address of an object or a function. `Rule` names the rule that the node at `from` breaks.
pub fn address(table: &mut TypedTable, from: u32, operand: NodeId) -> Result<NodeId, TypeError>
    requires { IsNode table.old operand }
    ensures agrees { Agrees (StandsAt table.new) (address_by_rules from (node_at table.old operand)) result }
    ensures kept { Keeps table.old table.new }
{
    match table.sort_of(operand) {
        Sort::Object => Ok(of_object(table, operand)?),
        Sort::Function => Ok(table.value_of(operand)?),
        Sort::Value => Err(TypeError::Rule(from, 8)),
    }
}

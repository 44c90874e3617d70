//! `*` before an operand (C11 6.5.3.2, 4).

ghost use Rattle.c_types_rules.specs.Expressions.{pointed as pointed_of};
ghost use Rattle.c_types_nodes.specs.Tables.{IsValueAt, Keeps, value_at};
ghost use Rattle.c_types_operators.specs.Answers.{Agrees, StandsAt};

use crate::error::TypeError;
use crate::queries::{is_function, size_of, target_of};
use c_types_model::Extent;
use c_types_nodes::{Node, NodeId, TypedTable};

/// The function or the complete object that a pointer points to. `Rule` names the rule that the node at `from` breaks.
pub fn pointed(
    table: &mut TypedTable,
    structs: &[Extent],
    from: u32,
    value: NodeId,
) -> Result<NodeId, TypeError>
    requires { IsValueAt table.old value }
    ensures agrees { Agrees (StandsAt table.new) (pointed_of structs.now from (value_at table.old value))
        result }
    ensures kept { Keeps table.old table.new }
{
    let Some(target) = target_of(table, value) else {
        return Err(TypeError::Rule(from, 14));
    };
    if is_function(table, target) {
        let function = table.add(Node::Through(value, target))?;
        return Ok(function);
    }
    let Some(_size) = size_of(table, structs, target) else {
        return Err(TypeError::Rule(from, 14));
    };
    Ok(table.add(Node::Pointed(value, target))?)
}

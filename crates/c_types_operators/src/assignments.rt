//! Assignments (C11 6.5.16).

ghost use Rattle.std.specs.Prelude.{◌≡◌, IsTrue};
ghost use Rattle.c_types_rules.specs.Operators.{assignment as assignment_by_rules, operator_in as operator_in_sign};
ghost use Rattle.c_types_nodes.specs.Tables.{IsNode, IsObjectAt, IsValueAt, Keeps, node_at, object_at, value_at};
ghost use Rattle.c_types_operators.specs.Answers.{Agrees, IsAt};
ghost use Rattle.c_types_operators.specs.Assignments.{is_scalar_object as is_scalar_object_node, simple as simple_by_rules};

use crate::compound::compound;
use crate::conversions::assigned;
use crate::error::TypeError;
use crate::queries::scalar_in;
use c_lexer::Sign;
use c_types_model::Extent;
use c_types_nodes::{Node, NodeId, Sort, TypedTable};
use r2_num::Op;

// The operator of a compound assignment; `None` of the simple one.
fn operator_in(sign: Sign) -> Option<Op>
    ensures { result ≡ operator_in_sign sign }
{
    match sign {
        Sign::StarAssign => Some(Op::Mul),
        Sign::SlashAssign => Some(Op::Div),
        Sign::PercentAssign => Some(Op::Rem),
        Sign::PlusAssign => Some(Op::Add),
        Sign::MinusAssign => Some(Op::Sub),
        Sign::ShiftLeftAssign => Some(Op::Shl),
        Sign::ShiftRightAssign => Some(Op::Shr),
        Sign::AmpersandAssign => Some(Op::And),
        Sign::CaretAssign => Some(Op::Xor),
        Sign::BarAssign => Some(Op::Or),
        _ => None,
    }
}

// Whether a node is a scalar object, which may stand on the left (C11 6.5.16, 2).
fn is_scalar_object(table: &TypedTable, id: NodeId) -> bool
    requires { IsNode table.now id }
    ensures test { result ≡ is_scalar_object_node (node_at table.now id) }
    ensures object { IsTrue result → IsObjectAt table.now id }
{
    match table.sort_of(id) {
        Sort::Object => scalar_in(table, table.type_of(id)).is_some(),
        Sort::Function | Sort::Value => false,
    }
}

// `=`: the value is converted to the type of the object (C11 6.5.16.1, 2).
fn simple(
    table: &mut TypedTable,
    from: u32,
    object: NodeId,
    value: NodeId,
) -> Result<NodeId, TypeError>
    requires object { IsObjectAt table.old object }
    requires value { IsValueAt table.old value }
    ensures agrees { Agrees (IsAt table.new) (simple_by_rules from (object_at table.old object)
        (value_at table.old value)) result }
    ensures kept { Keeps table.old table.new }
{
    let ty = table.type_of(object);
    let value = assigned(table, from, ty, value)?;
    Ok(table.add(Node::Assigned(object, value))?)
}

/// What an assignment makes of the object on its left and the value on its right.
///
/// `structs` has the extents of the structs that are defined, by number, and `from` is the offset of the node. `Rule`
/// names the rule that the node breaks.
pub fn assignment(
    table: &mut TypedTable,
    structs: &[Extent],
    from: u32,
    sign: Sign,
    left: NodeId,
    value: NodeId,
) -> Result<NodeId, TypeError>
    requires left { IsNode table.old left }
    requires value { IsValueAt table.old value }
    ensures agrees { Agrees (IsAt table.new) (assignment_by_rules structs.now from sign
        (node_at table.old left) (value_at table.old value)) result }
    ensures kept { Keeps table.old table.new }
{
    if !is_scalar_object(table, left) {
        return Err(TypeError::Rule(from, 8));
    }
    match operator_in(sign) {
        None => simple(table, from, left, value),
        Some(op) => compound(table, structs, from, op, left, value),
    }
}

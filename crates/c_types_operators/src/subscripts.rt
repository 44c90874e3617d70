//! Subscripts (C11 6.5.2.1).

ghost use Rattle.std.specs.Prelude.{◌≡◌, ◌<◌, length};
ghost use Rattle.c_types_rules.specs.Expressions.{element as element_of, subscript as subscript_of};
ghost use Rattle.c_types_table.specs.Tables.{type_at};
ghost use Rattle.c_types_nodes.specs.Parts.{sum_in};
ghost use Rattle.c_types_nodes.specs.Tables.{IsValueAt, Keeps, value_at};
ghost use Rattle.c_types_operators.specs.Answers.{Agrees, StandsAt};

use crate::arithmetic::to_kind;
use crate::error::TypeError;
use crate::queries::{is_integer, size_of, target_of};
use c_types_model::Extent;
use c_types_nodes::{Node, NodeId, Sum, TypedTable};
use c_types_table::TypeId;
use r2_num::IntKind;

// What lies an integer's number of elements after what a pointer to a complete object points to.
fn element(
    table: &mut TypedTable,
    structs: &[Extent],
    from: u32,
    sum: Sum,
    target: TypeId,
    pointer: NodeId,
    index: NodeId,
) -> Result<NodeId, TypeError>
    requires target { target.0 < length table.old.types }
    requires pointer { IsValueAt table.old pointer }
    requires index { IsValueAt table.old index }
    ensures agrees { Agrees (StandsAt table.new)
        (element_of structs.now from (sum_in sum) (type_at table.old.types target)
        (value_at table.old pointer) (value_at table.old index)) result }
    ensures kept { Keeps table.old table.new }
{
    let Some(_size) = size_of(table, structs, target) else {
        return Err(TypeError::Rule(from, 14));
    };
    if !is_integer(table, index) {
        return Err(TypeError::Rule(from, 14));
    }
    let index = to_kind(table, IntKind::I64, index)?;
    Ok(table.add(Node::Element {
        sum,
        pointer,
        index,
        ty: target,
    })?)
}

/// The object that a pointer and an integer designate, in either order. `Rule` names the rule that the node at `from` breaks.
pub fn subscript(
    table: &mut TypedTable,
    structs: &[Extent],
    from: u32,
    left: NodeId,
    right: NodeId,
) -> Result<NodeId, TypeError>
    requires left { IsValueAt table.old left }
    requires right { IsValueAt table.old right }
    ensures agrees { Agrees (StandsAt table.new)
        (subscript_of structs.now from (value_at table.old left) (value_at table.old right)) result }
    ensures kept { Keeps table.old table.new }
{
    match target_of(table, left) {
        Some(target) => element(table, structs, from, Sum::PointerPlus, target, left, right),
        None => match target_of(table, right) {
            Some(target) => element(table, structs, from, Sum::PlusPointer, target, right, left),
            None => Err(TypeError::Rule(from, 14)),
        },
    }
}

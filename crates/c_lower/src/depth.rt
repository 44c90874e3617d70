//! The depth of the evaluation stack in expressions.

ghost use Rattle.std.specs.Prelude.{◌≡◌, ◌+◌, ℕ, max};
ghost use Rattle.std.specs.List.{All};
ghost use Rattle.c_types_nodes.specs.Parts.{sum_in, values};
ghost use Rattle.c_types_nodes.specs.Tables.{IsNode, IsObjectAt, IsValueAt, node_at, object_at, typed_of, value_at};
ghost use Rattle.c_lower_placement.specs.Heights.{object_depth as object_depth_of, pair_depth, sum_depth, value_depth as value_depth_of, values_depth as values_depth_of};
ghost use Rattle.c_lower.specs.Depths.{calling_depth, capped, typed_depth};

use c_types_nodes::{Node, NodeId, Sum, TypedTable};

// The first of two is on the stack below the second.
fn pair(first: u8, second: u8) -> u8
    ensures { (a b : ℕ) → first ≡ capped a → second ≡ capped b → result ≡ capped (pair_depth a b) }
{
    first.max(second.saturating_add(1))
}

// Two are on the stack: an address, and what it leads to.
fn after_two(first: u8, second: u8) -> u8
    ensures { (a b : ℕ) → first ≡ capped a → second ≡ capped b → result ≡ capped (max a (2 + b)) }
{
    first.max(second.saturating_add(2))
}

/// The greater of two numbers of values.
pub fn either(first: u8, second: u8) -> u8
    ensures { (a b : ℕ) → first ≡ capped a → second ≡ capped b → result ≡ capped (max a b) }
{
    first.max(second)
}

fn sum(sum: Sum, pointer: u8, index: u8) -> u8
    ensures { (p i : ℕ) → pointer ≡ capped p → index ≡ capped i →
        result ≡ capped (sum_depth (sum_in sum) p i) }
{
    match sum {
        Sum::PointerPlus | Sum::PointerMinus => pair(pointer, index),
        Sum::PlusPointer => pair(index, pointer),
    }
}

/// The greatest depth of the evaluation stack in an expression. More than 255 count as 255.
#[cycle(depth)]
pub fn node_depth(table: &TypedTable, id: NodeId) -> u8
    requires { IsNode table.now id }
    ensures { result ≡ capped (typed_depth (node_at table.now id)) }
{
    match table.get(id) {
        Node::GlobalObject { .. }
        | Node::LocalObject(..)
        | Node::TextObject { .. }
        | Node::Constant(..)
        | Node::FunctionAddress { .. } => 1,
        Node::SourceFunction { .. } | Node::BuiltinFunction { .. } => 0,
        Node::Pointed(value, _)
        | Node::Through(value, _)
        | Node::Convert(_, value)
        | Node::Negate(_, value)
        | Node::Complement(_, value)
        | Node::Not(value) => value_depth(table, *value),
        Node::MemberOf(object, ..) | Node::ReadOf(object) | Node::AddressOf(object, _) =>
            object_depth(table, *object),
        Node::Element {
            sum: order,
            pointer,
            index,
            ..
        }
        | Node::PointerSum {
            sum: order,
            pointer,
            index,
            ..
        } => sum(
            *order,
            value_depth(table, *pointer),
            value_depth(table, *index),
        ),
        Node::Arithmetic(_, _, left, right)
        | Node::PointerDifference(left, right, _)
        | Node::PointerComparison(_, left, right) => pair(
            value_depth(table, *left),
            value_depth(table, *right),
        ),
        Node::Both(left, right) | Node::Either(left, right) | Node::Sequence(left, right) => either(
            value_depth(table, *left),
            value_depth(table, *right),
        ),
        Node::Choice(condition, then, other) => either(
            value_depth(table, *condition),
            either(value_depth(table, *then), value_depth(table, *other)),
        ),
        Node::Assigned(object, value) => pair(
            object_depth(table, *object),
            value_depth(table, *value),
        ),
        Node::Changed(object, _, _, value) => after_two(
            object_depth(table, *object),
            value_depth(table, *value),
        ),
        Node::Moved { object, index, .. } => after_two(
            object_depth(table, *object),
            value_depth(table, *index),
        ),
        Node::Stepped { object, .. } => either(object_depth(table, *object), 2),
        Node::CallOf {
            callee,
            arguments,
            ..
        } => call_depth(table, *callee, arguments.as_slice()),
    }
}

/// The greatest depth of the evaluation stack in a value, itself on it. More than 255 count as 255.
#[cycle(depth)]
pub fn value_depth(table: &TypedTable, id: NodeId) -> u8
    requires { IsValueAt table.now id }
    ensures { result ≡ capped (value_depth_of (value_at table.now id)) }
{
    node_depth(table, id)
}

#[cycle(depth)]
fn object_depth(table: &TypedTable, id: NodeId) -> u8
    requires { IsObjectAt table.now id }
    ensures { result ≡ capped (object_depth_of (object_at table.now id)) }
{
    node_depth(table, id)
}

#[cycle(depth)]
fn values_depth(table: &TypedTable, ids: &[NodeId]) -> u8
    requires { All (IsValueAt table.now) ids.now }
    ensures { result ≡ capped (values_depth_of (values (typed_of table.now) ids.now)) }
{
    let mut waiting = 0;
    for i in (0..ids.len()).rev() {
        waiting = pair(value_depth(table, ids[i]), waiting);
    }
    waiting
}

#[cycle(depth)]
fn call_depth(table: &TypedTable, callee: NodeId, arguments: &[NodeId]) -> u8
    requires callee { IsNode table.now callee }
    requires arguments { All (IsValueAt table.now) arguments.now }
    ensures { result ≡ capped (calling_depth (node_at table.now callee)
        (values_depth_of (values (typed_of table.now) arguments.now))) }
{
    let waiting = values_depth(table, arguments);
    match table.get(callee) {
        Node::Through(pointer, _) => pair(value_depth(table, *pointer), waiting),
        _ => either(1, waiting),
    }
}

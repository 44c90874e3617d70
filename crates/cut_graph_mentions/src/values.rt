//! What expressions mention. `counts` says whether the name of an array that stands alone counts as written, and `here`
//! whether it does where it is the expression itself.

ghost use Rattle.std.specs.Prelude.{◌<◌, ◌++◌, false, length};
ghost use Rattle.std.specs.List.{All};
ghost use Rattle.c_types_table.specs.Tables.{type_at};
ghost use Rattle.c_types_nodes.specs.Parts.{values as values_in};
ghost use Rattle.c_types_nodes.specs.Tables.{CanHold, IsFunctionAt, IsNode, IsObjectAt, IsValueAt, callee_at, made_in, node_at, object_at, typed_of, value_at};
ghost use Rattle.cut_graph_rules.specs.Mentions.{callee_mentions, object_mentions, root_written, typed_mentions, value_mentions, values_mentions, written_at, written_under};
ghost use Rattle.cut_graph_mentions.specs.Growing.{IsAdded};

use crate::found::Found;
use crate::paths::{address_writes, origin};
use c_types_nodes::{Node, NodeId, TypedTable};
use c_types_table::TypeId;
use cut_graph_rules::Mention;

/// Adds what an expression mentions.
#[cycle(values)]
pub(crate) fn node(table: &TypedTable, found: &mut Found, here: bool, counts: bool, id: NodeId)
    requires { IsNode table.now id }
    ensures { IsAdded found.old (typed_mentions here counts (node_at table.now id)) found.new }
{
    parts(table, found, here, counts, table.get(id));
}

// The same by the form of the expression.
#[cycle(values)]
fn parts(table: &TypedTable, found: &mut Found, here: bool, counts: bool, node: &Node)
    requires { CanHold table.now node.now }
    ensures { IsAdded found.old (typed_mentions here counts (made_in table.now node.now)) found.new }
{
    match node {
        Node::LocalObject(..) | Node::TextObject { .. } | Node::Constant(..) => {}
        Node::GlobalObject { place, .. } => found.put(Mention::Global(*place)),
        Node::SourceFunction { number, .. } | Node::FunctionAddress { number, .. } => {
            found.put(Mention::Function(*number))
        }
        Node::BuiltinFunction { builtin, .. } => found.put_builtin(*builtin),
        Node::Pointed(part, _)
        | Node::Through(part, _)
        | Node::Convert(_, part)
        | Node::Negate(_, part)
        | Node::Complement(_, part)
        | Node::Not(part) => value(table, found, counts, counts, *part),
        Node::MemberOf(part, ..) | Node::ReadOf(part) => object(table, found, counts, *part),
        Node::Element { pointer, index, .. } => element(table, found, counts, *pointer, *index),
        Node::AddressOf(part, ty) => address(table, found, here, counts, *part, *ty),
        Node::Arithmetic(_, _, left, right)
        | Node::PointerSum {
            pointer: left,
            index: right,
            ..
        }
        | Node::PointerDifference(left, right, _)
        | Node::PointerComparison(_, left, right)
        | Node::Both(left, right)
        | Node::Either(left, right)
        | Node::Sequence(left, right) => pair(table, found, counts, *left, *right),
        Node::Choice(condition, then, other) => {
            choice(table, found, counts, *condition, *then, *other)
        }
        Node::Assigned(left, right)
        | Node::Changed(left, _, _, right)
        | Node::Moved {
            object: left,
            index: right,
            ..
        } => assigned(table, found, counts, *left, *right),
        Node::Stepped { object, .. } => changed(table, found, counts, *object),
        Node::CallOf {
            callee,
            arguments,
            ..
        } => call(table, found, counts, *callee, arguments.as_slice()),
    }
}

/// Adds what a value mentions.
#[cycle(values)]
pub(crate) fn value(table: &TypedTable, found: &mut Found, here: bool, counts: bool, id: NodeId)
    requires { IsValueAt table.now id }
    ensures { IsAdded found.old (value_mentions here counts (value_at table.now id)) found.new }
{
    node(table, found, here, counts, id);
}

#[cycle(values)]
fn object(table: &TypedTable, found: &mut Found, counts: bool, id: NodeId)
    requires { IsObjectAt table.now id }
    ensures { IsAdded found.old (object_mentions counts (object_at table.now id)) found.new }
{
    node(table, found, counts, counts, id);
}

#[cycle(values)]
fn callee(table: &TypedTable, found: &mut Found, counts: bool, id: NodeId)
    requires { IsFunctionAt table.now id }
    ensures { IsAdded found.old (callee_mentions counts (callee_at table.now id)) found.new }
{
    node(table, found, counts, counts, id);
}

#[cycle(values)]
fn pair(table: &TypedTable, found: &mut Found, counts: bool, left: NodeId, right: NodeId)
    requires left { IsValueAt table.now left }
    requires right { IsValueAt table.now right }
    ensures { IsAdded found.old (value_mentions counts counts (value_at table.now left) ++
        value_mentions counts counts (value_at table.now right)) found.new }
{
    value(table, found, counts, counts, left);
    value(table, found, counts, counts, right);
}

// A subscript, whose pointer doesn't stand alone.
#[cycle(values)]
fn element(table: &TypedTable, found: &mut Found, counts: bool, pointer: NodeId, index: NodeId)
    requires pointer { IsValueAt table.now pointer }
    requires index { IsValueAt table.now index }
    ensures { IsAdded found.old (value_mentions false counts (value_at table.now pointer) ++
        value_mentions counts counts (value_at table.now index)) found.new }
{
    value(table, found, false, counts, pointer);
    value(table, found, counts, counts, index);
}

#[cycle(values)]
fn address(
    table: &TypedTable,
    found: &mut Found,
    here: bool,
    counts: bool,
    part: NodeId,
    ty: TypeId,
)
    requires part { IsObjectAt table.now part }
    requires ty { ty.0 < length table.now.types }
    ensures { IsAdded found.old (written_at (written_under here (object_at table.now part)
        (type_at table.now.types ty)) ++ object_mentions counts (object_at table.now part)) found.new }
{
    found.put_written(address_writes(table, here, part, ty));
    object(table, found, counts, part);
}

#[cycle(values)]
fn choice(
    table: &TypedTable,
    found: &mut Found,
    counts: bool,
    condition: NodeId,
    then: NodeId,
    other: NodeId,
)
    requires condition { IsValueAt table.now condition }
    requires then { IsValueAt table.now then }
    requires other { IsValueAt table.now other }
    ensures { IsAdded found.old (value_mentions counts counts (value_at table.now condition) ++
        (value_mentions counts counts (value_at table.now then) ++
        value_mentions counts counts (value_at table.now other))) found.new }
{
    value(table, found, counts, counts, condition);
    pair(table, found, counts, then, other);
}

// An object that is changed.
#[cycle(values)]
fn changed(table: &TypedTable, found: &mut Found, counts: bool, part: NodeId)
    requires { IsObjectAt table.now part }
    ensures { IsAdded found.old (root_written (object_at table.now part) ++
        object_mentions counts (object_at table.now part)) found.new }
{
    found.put_written(origin(table, part));
    object(table, found, counts, part);
}

#[cycle(values)]
fn assigned(table: &TypedTable, found: &mut Found, counts: bool, left: NodeId, right: NodeId)
    requires left { IsObjectAt table.now left }
    requires right { IsValueAt table.now right }
    ensures { IsAdded found.old ((root_written (object_at table.now left) ++
        object_mentions counts (object_at table.now left)) ++
        value_mentions counts counts (value_at table.now right)) found.new }
{
    changed(table, found, counts, left);
    value(table, found, counts, counts, right);
}

#[cycle(values)]
fn call(table: &TypedTable, found: &mut Found, counts: bool, function: NodeId, arguments: &[NodeId])
    requires function { IsFunctionAt table.now function }
    requires arguments { All (IsValueAt table.now) arguments.now }
    ensures { IsAdded found.old (callee_mentions counts (callee_at table.now function) ++
        values_mentions counts (values_in (typed_of table.now) arguments.now)) found.new }
{
    callee(table, found, counts, function);
    values(table, found, counts, arguments);
}

// Values, from left to right.
#[cycle(values)]
fn values(table: &TypedTable, found: &mut Found, counts: bool, ids: &[NodeId])
    requires { All (IsValueAt table.now) ids.now }
    ensures { IsAdded found.old (values_mentions counts (values_in (typed_of table.now) ids.now)) found.new }
{
    match ids {
        [] => {}
        [first, others @ ..] => {
            value(table, found, counts, counts, *first);
            values(table, found, counts, others);
        }
    }
}

//! What a call calls (C11 6.5.2.2).

ghost use Rattle.std.specs.Prelude.{◌≡◌, ◌<◌, length};
ghost use Rattle.c_builtins.specs.Table.{params_of, prototype_of};
ghost use Rattle.c_types_rules.specs.Expressions.{called as called_by_rules, called_value};
ghost use Rattle.c_types_rules.specs.TypedTree.{AFunction, BuiltinFunction, value_type};
ghost use Rattle.c_types_table.specs.Tables.{type_at};
ghost use Rattle.c_types_nodes.specs.Tables.{IsFunctionAt, IsNode, IsValueAt, Keeps, node_at, value_at};
ghost use Rattle.c_types_operators.specs.Answers.{Agrees};
ghost use Rattle.c_types_operators.specs.Calls.{IsCalled, IsParameter};

use crate::error::TypeError;
use crate::prototypes::add_prototype;
use crate::queries::{is_function, target_of};
use c_builtins::Builtin;
use c_types_nodes::{Node, NodeId, Sort, TypedTable};
use c_types_table::{Ty, TypeId};
use std::alloc::Global;

/// What a call calls. `parameter` reads what it takes from the function's type.
#[derive(Clone, Copy)]
pub struct CallTarget {
    /// The node of the function.
    pub callee: NodeId,
    /// The type of the function.
    pub function: TypeId,
    /// The type of what it gives.
    pub result: TypeId,
}

// The call of a node that is a function.
fn of_function(table: &TypedTable, from: u32, callee: NodeId) -> Result<CallTarget, TypeError>
    requires { IsFunctionAt table.now callee }
    ensures { Agrees (IsCalled table.now) (called_by_rules from (node_at table.now callee)) result }
{
    let function = table.type_of(callee);
    match table.types().get(function) {
        Ty::Function { result, .. } => Ok(CallTarget {
            callee,
            function,
            result: *result,
        }),
        _ => Err(TypeError::Rule(from, 9)),
    }
}

// The call through a value, which must be a pointer to a function.
fn through(table: &mut TypedTable, from: u32, value: NodeId) -> Result<CallTarget, TypeError>
    requires { IsValueAt table.old value }
    ensures agrees { Agrees (IsCalled table.new)
        (called_value from (value_at table.old value) (value_type (value_at table.old value))) result }
    ensures kept { Keeps table.old table.new }
{
    let Some(target) = target_of(table, value) else {
        return Err(TypeError::Rule(from, 9));
    };
    if !is_function(table, target) {
        return Err(TypeError::Rule(from, 9));
    }
    let callee = table.add(Node::Through(value, target))?;
    of_function(table, from, callee)
}

/// What a call of a node calls: a function, or what a pointer to one points to. `Rule` names the rule that the node at `from`
/// breaks.
pub fn called(table: &mut TypedTable, from: u32, node: NodeId) -> Result<CallTarget, TypeError>
    requires { IsNode table.old node }
    ensures agrees { Agrees (IsCalled table.new) (called_by_rules from (node_at table.old node)) result }
    ensures kept { Keeps table.old table.new }
{
    match table.sort_of(node) {
        Sort::Function => of_function(table, from, node),
        Sort::Object | Sort::Value => {
            let value = table.value_of(node)?;
            through(table, from, value)
        }
    }
}

/// What a call of a builtin calls, whose name stands at `from`, and whose type is put into the table.
pub fn builtin_called(
    alloc: Global,
    table: &mut TypedTable,
    from: u32,
    builtin: Builtin,
) -> Result<CallTarget, TypeError>
    ensures agrees { Agrees (IsCalled table.new)
        (called_by_rules from (AFunction (BuiltinFunction from builtin) (prototype_of builtin))) result }
    ensures kept { Keeps table.old table.new }
{
    let ty = add_prototype(alloc, table, builtin)?;
    let callee = table.add(Node::BuiltinFunction { from, builtin, ty })?;
    of_function(table, from, callee)
}

/// The type of the parameter of this number, from 0 on, of a function of this type; `None` where it has no more.
pub fn parameter(table: &TypedTable, function: TypeId, number: usize) -> Option<TypeId>
    requires { function.0 < length table.now.types }
    ensures { IsParameter table.now.types (params_of (type_at table.now.types function)) number result }
{
    match table.types().get(function) {
        Ty::Function { params, .. } => params.as_slice().get(number).copied(),
        _ => None,
    }
}

//! Functions whose evaluation stack is too deep.

ghost use Rattle.std.specs.Prelude.{◌≡◌, ◌+◌, ◌^◌, ◌≤◌, Some, length};
ghost use Rattle.std.specs.Option.{option_map};
ghost use Rattle.c_builtins.specs.Table.{first_source_function};
ghost use Rattle.c_types_program.specs.Declarations.{IsBody, body_in};
ghost use Rattle.c_types_program.specs.Statements.{AllStatements, IsMaybeAt, IsStatement, maybe_at, statement_in, statements_in};
ghost use Rattle.c_types_nodes.specs.Lists.{AreNodes, nodes_at};
ghost use Rattle.c_lower_placement.specs.Heights.{maybe_depth as maybe_depth_of, statement_depth as statement_depth_of, statements_depth as statements_depth_of};
ghost use Rattle.c_lower.specs.Depths.{body_depth as body_depth_of, capped, first_wide as first_wide_of, functions_in, greatest_depth as greatest_depth_of, is_wide as is_wide_of};

use crate::depth::{either, node_depth, value_depth};
use c_builtins::FIRST_SOURCE_FUNCTION;
use c_types_nodes::{NodeId, TypedTable};
use c_types_program::{Body, Statement, TypedProgram};
use source_limits::MOST_VALUES;

fn maybe_depth(table: &TypedTable, value: Option<NodeId>) -> u8
    requires { IsMaybeAt table.now value }
    ensures { result ≡ capped (maybe_depth_of (maybe_at table.now value)) }
{
    match value {
        None => 0,
        Some(value) => value_depth(table, value),
    }
}

// The greatest depth of the evaluation stack in a statement. More than 255 count as 255.
#[cycle(statements)]
fn statement_depth(table: &TypedTable, statement: &Statement) -> u8
    requires { IsStatement table.now statement.now }
    ensures { result ≡ capped (statement_depth_of (statement_in table.now statement.now)) }
{
    match statement {
        Statement::Block(statements) => statements_depth(table, statements),
        Statement::Evaluate(value) | Statement::Initialise { value, .. } => value_depth(
            table, *value,
        ),
        Statement::If(value, body)
        | Statement::While {
            condition: value,
            body,
            ..
        } => either(value_depth(table, *value), statement_depth(table, body)),
        Statement::IfElse(value, then, other) => either(
            value_depth(table, *value),
            either(statement_depth(table, then), statement_depth(table, other)),
        ),
        Statement::Do {
            body,
            condition: value,
            ..
        } => either(statement_depth(table, body), value_depth(table, *value)),
        Statement::For {
            first,
            condition,
            last,
            body,
            ..
        } => either(
            statements_depth(table, first),
            either(
                maybe_depth(table, *condition),
                either(maybe_depth(table, *last), statement_depth(table, body)),
            ),
        ),
        Statement::Break | Statement::Continue => 0,
        Statement::Return { value, .. } => either(1, maybe_depth(table, *value)),
    }
}

#[cycle(statements)]
fn statements_depth(table: &TypedTable, statements: &[Statement]) -> u8
    requires { AllStatements table.now statements.now }
    ensures { result ≡ capped (statements_depth_of (statements_in table.now statements.now)) }
{
    let mut most = 0;
    for i in (0..statements.len()).rev() {
        most = either(statement_depth(table, &statements[i]), most);
    }
    most
}

// The greatest depth of the evaluation stack in expressions that aren't evaluated. More than 255 count as 255.
fn greatest_depth(table: &TypedTable, ids: &[NodeId]) -> u8
    requires { AreNodes table.now ids.now }
    ensures { result ≡ capped (greatest_depth_of (nodes_at table.now ids.now)) }
{
    let mut most = 0;
    for i in (0..ids.len()).rev() {
        most = either(node_depth(table, ids[i]), most);
    }
    most
}

// The greatest depth of the evaluation stack in the block of a function. More than 255 count as 255.
fn body_depth(table: &TypedTable, body: &Body) -> u8
    requires { IsBody table.now (Some body.now) }
    ensures { result ≡ capped (body_depth_of (body_in table.now body.now)) }
{
    either(
        statement_depth(table, &body.statements),
        greatest_depth(table, body.unevaluated.as_slice()),
    )
}

// Whether the evaluation stack is deeper than 64 values in what a function does.
fn is_wide(table: &TypedTable, body: &Option<Body>) -> bool
    requires { IsBody table.now body.now }
    ensures { result ≡ is_wide_of (option_map (body_in table.now) body.now) }
{
    match body {
        None => false,
        Some(body) => body_depth(table, body) > MOST_VALUES,
    }
}

/// The number of the first function whose evaluation stack is deeper than 64 values; `None` where there is
/// none. It takes time linear in the nodes of the program.
pub fn first_wide(program: &TypedProgram) -> Option<u16>
    requires { first_source_function + length program.now.functions ≤ 2 ^ 16 }
    ensures { result ≡ first_wide_of 0 (functions_in program.now) }
{
    for (place, function) in program.functions().iter().enumerate() {
        if is_wide(program.table(), &function.body) {
            return Some(FIRST_SOURCE_FUNCTION + place as u16);
        }
    }
    None
}

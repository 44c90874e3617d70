//! What statements mention.

ghost use Rattle.std.specs.Prelude.{◌++◌};
ghost use Rattle.c_types_nodes.specs.Tables.{IsValueAt, value_at};
ghost use Rattle.c_types_program.specs.Statements.{AllStatements, IsMaybeAt, IsStatement, maybe_at, statement_in, statements_in};
ghost use Rattle.cut_graph_rules.specs.Mentions.{evaluated_mentions, maybe_mentions, statement_mentions, statements_mentions};
ghost use Rattle.cut_graph_mentions.specs.Growing.{IsAdded};

use crate::found::Found;
use crate::values::value;
use c_types_nodes::{NodeId, TypedTable};
use c_types_program::Statement;

fn evaluated(table: &TypedTable, found: &mut Found, id: NodeId)
    requires { IsValueAt table.now id }
    ensures { IsAdded found.old (evaluated_mentions (value_at table.now id)) found.new }
{
    value(table, found, true, true, id);
}

fn maybe(table: &TypedTable, found: &mut Found, id: Option<NodeId>)
    requires { IsMaybeAt table.now id }
    ensures { IsAdded found.old (maybe_mentions (maybe_at table.now id)) found.new }
{
    match id {
        None => {}
        Some(id) => evaluated(table, found, id),
    }
}

/// Adds what a statement mentions.
#[cycle(statements)]
pub(crate) fn statement(table: &TypedTable, found: &mut Found, statement: &Statement)
    requires { IsStatement table.now statement.now }
    ensures { IsAdded found.old (statement_mentions (statement_in table.now statement.now)) found.new }
{
    match statement {
        Statement::Block(inner) => statements(table, found, inner),
        Statement::Evaluate(value) | Statement::Initialise { value, .. } => {
            evaluated(table, found, *value)
        }
        Statement::If(condition, body)
        | Statement::While {
            condition,
            body,
            ..
        } => guarded(table, found, *condition, body),
        Statement::IfElse(condition, then, other) => {
            chosen(table, found, *condition, then, other)
        }
        Statement::Do {
            body,
            condition,
            ..
        } => tested(table, found, body, *condition),
        Statement::For {
            first,
            condition,
            last,
            body,
            ..
        } => repeated(table, found, first, *condition, *last, body),
        Statement::Break | Statement::Continue => {}
        Statement::Return { value, .. } => maybe(table, found, *value),
    }
}

// Statements, one after another.
#[cycle(statements)]
fn statements(table: &TypedTable, found: &mut Found, statements: &[Statement])
    requires { AllStatements table.now statements.now }
    ensures { IsAdded found.old (statements_mentions (statements_in table.now statements.now)) found.new }
{
    for i in 0..statements.len() {
        statement(table, found, &statements[i]);
    }
}

#[cycle(statements)]
fn guarded(table: &TypedTable, found: &mut Found, condition: NodeId, body: &Statement)
    requires condition { IsValueAt table.now condition }
    requires body { IsStatement table.now body.now }
    ensures { IsAdded found.old (evaluated_mentions (value_at table.now condition) ++
        statement_mentions (statement_in table.now body.now)) found.new }
{
    evaluated(table, found, condition);
    statement(table, found, body);
}

#[cycle(statements)]
fn chosen(
    table: &TypedTable,
    found: &mut Found,
    condition: NodeId,
    then: &Statement,
    other: &Statement,
)
    requires condition { IsValueAt table.now condition }
    requires then { IsStatement table.now then.now }
    requires other { IsStatement table.now other.now }
    ensures { IsAdded found.old (evaluated_mentions (value_at table.now condition) ++
        (statement_mentions (statement_in table.now then.now) ++
        statement_mentions (statement_in table.now other.now))) found.new }
{
    evaluated(table, found, condition);
    statement(table, found, then);
    statement(table, found, other);
}

#[cycle(statements)]
fn tested(table: &TypedTable, found: &mut Found, body: &Statement, condition: NodeId)
    requires body { IsStatement table.now body.now }
    requires condition { IsValueAt table.now condition }
    ensures { IsAdded found.old (statement_mentions (statement_in table.now body.now) ++
        evaluated_mentions (value_at table.now condition)) found.new }
{
    statement(table, found, body);
    evaluated(table, found, condition);
}

#[cycle(statements)]
fn repeated(
    table: &TypedTable,
    found: &mut Found,
    first: &[Statement],
    condition: Option<NodeId>,
    last: Option<NodeId>,
    body: &Statement,
)
    requires first { AllStatements table.now first.now }
    requires condition { IsMaybeAt table.now condition }
    requires last { IsMaybeAt table.now last }
    requires body { IsStatement table.now body.now }
    ensures { IsAdded found.old (statements_mentions (statements_in table.now first.now) ++
        (maybe_mentions (maybe_at table.now condition) ++ (maybe_mentions (maybe_at table.now last) ++
        statement_mentions (statement_in table.now body.now)))) found.new }
{
    statements(table, found, first);
    maybe(table, found, condition);
    maybe(table, found, last);
    statement(table, found, body);
}

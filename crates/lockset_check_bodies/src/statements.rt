//! The walk over statements.

ghost use Rattle.std.specs.Prelude.{IfOk, OnOk};
ghost use Rattle.c_types_nodes.specs.Tables.{IsValueAt, value_at};
ghost use Rattle.c_types_program.specs.Statements.{AllStatements, IsMaybeAt, IsStatement, maybe_at, statement_in, statements_in};
ghost use Rattle.c_types_rules.specs.TypedTree as tree;
ghost use Rattle.lockset_check_rules.specs.Statements.{loop_differs_in};
ghost use Rattle.lockset_check_values.specs.Setting.{guarded};
ghost use Rattle.lockset_check_values.specs.Walks.{IsWalkOf};
ghost use Rattle.lockset_check_bodies.specs.Places.{PartWalked, Passed, StatementWalked, StatementsWalked, in_part, in_round, within as standing};

use crate::ways::{check_loop, check_start, end_way, end_ways};
use c_types_nodes::NodeId;
use c_types_program::Statement;
use lockset_check_values::{Walk, Walker};
use std::alloc::AllocError;

/// Over a statement, in the loop that begins at this offset, if it is in one. Gives whether it goes on; where it doesn't, nothing is
/// known of what is held.
#[cycle(statements)]
pub(crate) fn walk_statement(
    walker: &Walker<'_, '_>,
    walk: &mut Walk,
    statement: &Statement,
    within: Option<u32>,
) -> Result<bool, AllocError>
    requires statement { IsStatement walker.now.program.table statement.now }
    requires walk { IsWalkOf walker.now.sayings walk.old }
    ensures { IfOk result (λ goes. StatementWalked (guarded walker.now) within
        (statement_in walker.now.program.table statement.now) goes walk.old walk.new) }
{
    match statement {
        Statement::Block(statements) => walk_statements(walker, walk, statements, within),
        Statement::Evaluate(value) | Statement::Initialise { value, .. } => evaluate(
            walker, walk, *value,
        ),
        Statement::If(condition, then) => one_way(walker, walk, *condition, then, within),
        Statement::IfElse(condition, then, other) => two_ways(
            walker, walk, *condition, then, other, within,
        ),
        Statement::While {
            from,
            condition,
            body,
        } => while_loop(walker, walk, *from, *condition, body),
        Statement::Do {
            from,
            body,
            condition,
        } => do_loop(walker, walk, *from, body, *condition),
        Statement::For {
            from,
            first,
            condition,
            last,
            body,
        } => for_statement(walker, walk, *from, first, *condition, *last, body, within),
        Statement::Break | Statement::Continue => leave(walk, within),
        Statement::Return { from, value } => give(walker, walk, *from, *value),
    }
}

// A value that isn't used.
fn evaluate(walker: &Walker<'_, '_>, walk: &mut Walk, value: NodeId) -> Result<bool, AllocError>
    requires value { IsValueAt walker.now.program.table value }
    requires walk { IsWalkOf walker.now.sayings walk.old }
    ensures { IfOk result (λ goes. StatementWalked (guarded walker.now) None
        (tree.Evaluate (value_at walker.now.program.table value)) goes walk.old walk.new) }
{
    walker.value(walk, value)?;
    Ok(true)
}

// `break` or `continue`.
fn leave(walk: &mut Walk, within: Option<u32>) -> Result<bool, AllocError>
    ensures { IfOk result (λ goes. Passed None
        (loop_differs_in (standing walk.old.sets within) walk.old.sets.held) goes walk.old walk.new) }
{
    check_loop(walk, within)?;
    Ok(false)
}

// `return` at this offset.
fn give(
    walker: &Walker<'_, '_>,
    walk: &mut Walk,
    from: u32,
    value: Option<NodeId>,
) -> Result<bool, AllocError>
    requires value { IsMaybeAt walker.now.program.table value }
    requires walk { IsWalkOf walker.now.sayings walk.old }
    ensures { IfOk result (λ goes. StatementWalked (guarded walker.now) None
        (tree.Return from (maybe_at walker.now.program.table value)) goes walk.old walk.new) }
{
    walker.maybe(walk, value)?;
    check_start(walk, from)?;
    Ok(false)
}

// Statements, one after another, up to one that doesn't go on.
#[cycle(statements)]
fn walk_statements(
    walker: &Walker<'_, '_>,
    walk: &mut Walk,
    statements: &[Statement],
    within: Option<u32>,
) -> Result<bool, AllocError>
    requires statements { AllStatements walker.now.program.table statements.now }
    requires walk { IsWalkOf walker.now.sayings walk.old }
    ensures { IfOk result (λ goes. StatementsWalked (guarded walker.now) within
        (statements_in walker.now.program.table statements.now) goes walk.old walk.new) }
{
    for i in 0..statements.len() {
        let goes = walk_statement(walker, walk, &statements[i], within)?;
        if !goes {
            return Ok(false);
        }
    }
    Ok(true)
}

// A statement that is passed where the condition is 0.
#[cycle(statements)]
fn one_way(
    walker: &Walker<'_, '_>,
    walk: &mut Walk,
    condition: NodeId,
    then: &Statement,
    within: Option<u32>,
) -> Result<bool, AllocError>
    requires condition { IsValueAt walker.now.program.table condition }
    requires then { IsStatement walker.now.program.table then.now }
    requires walk { IsWalkOf walker.now.sayings walk.old }
    ensures { IfOk result (λ goes. StatementWalked (guarded walker.now) within
        (tree.If (value_at walker.now.program.table condition)
        (statement_in walker.now.program.table then.now)) goes walk.old walk.new) }
{
    walker.value(walk, condition)?;
    walk.keep()?;
    let goes = walk_statement(walker, walk, then, within)?;
    end_way(walk, goes)?;
    Ok(true)
}

// One of two statements.
#[cycle(statements)]
fn two_ways(
    walker: &Walker<'_, '_>,
    walk: &mut Walk,
    condition: NodeId,
    then: &Statement,
    other: &Statement,
    within: Option<u32>,
) -> Result<bool, AllocError>
    requires condition { IsValueAt walker.now.program.table condition }
    requires then { IsStatement walker.now.program.table then.now }
    requires other { IsStatement walker.now.program.table other.now }
    requires walk { IsWalkOf walker.now.sayings walk.old }
    ensures { IfOk result (λ goes. StatementWalked (guarded walker.now) within
        (tree.IfElse (value_at walker.now.program.table condition)
        (statement_in walker.now.program.table then.now)
        (statement_in walker.now.program.table other.now)) goes walk.old walk.new) }
{
    walker.value(walk, condition)?;
    walk.keep()?;
    let first = walk_statement(walker, walk, then, within)?;
    walk.turn()?;
    let second = walk_statement(walker, walk, other, within)?;
    end_ways(walk, first, second)
}

// A condition or last part of a loop that begins at this offset.
fn part(
    walker: &Walker<'_, '_>,
    walk: &mut Walk,
    from: u32,
    value: Option<NodeId>,
) -> Result<(), AllocError>
    requires value { IsMaybeAt walker.now.program.table value }
    requires walk { IsWalkOf walker.now.sayings walk.old }
    ensures { OnOk result (PartWalked from (in_part (guarded walker.now)
        (maybe_at walker.now.program.table value)) walk.old walk.new) }
{
    walk.restart()?;
    walker.maybe(walk, value)?;
    check_loop(walk, Some(from))
}

// The body of a loop that begins at this offset, to its end where that is reached.
#[cycle(statements)]
fn round(
    walker: &Walker<'_, '_>,
    walk: &mut Walk,
    from: u32,
    body: &Statement,
) -> Result<(), AllocError>
    requires body { IsStatement walker.now.program.table body.now }
    requires walk { IsWalkOf walker.now.sayings walk.old }
    ensures { OnOk result (PartWalked from (in_round (guarded walker.now)
        (statement_in walker.now.program.table body.now)) walk.old walk.new) }
{
    walk.restart()?;
    let goes = walk_statement(walker, walk, body, Some(from))?;
    if !goes {
        return Ok(());
    }
    check_loop(walk, Some(from))
}

#[cycle(statements)]
fn while_loop(
    walker: &Walker<'_, '_>,
    walk: &mut Walk,
    from: u32,
    condition: NodeId,
    body: &Statement,
) -> Result<bool, AllocError>
    requires condition { IsValueAt walker.now.program.table condition }
    requires body { IsStatement walker.now.program.table body.now }
    requires walk { IsWalkOf walker.now.sayings walk.old }
    ensures { IfOk result (λ goes. StatementWalked (guarded walker.now) None
        (tree.While from (value_at walker.now.program.table condition)
        (statement_in walker.now.program.table body.now)) goes walk.old walk.new) }
{
    walk.enter()?;
    part(walker, walk, from, Some(condition))?;
    round(walker, walk, from, body)?;
    walk.leave()?;
    Ok(true)
}

#[cycle(statements)]
fn do_loop(
    walker: &Walker<'_, '_>,
    walk: &mut Walk,
    from: u32,
    body: &Statement,
    condition: NodeId,
) -> Result<bool, AllocError>
    requires body { IsStatement walker.now.program.table body.now }
    requires condition { IsValueAt walker.now.program.table condition }
    requires walk { IsWalkOf walker.now.sayings walk.old }
    ensures { IfOk result (λ goes. StatementWalked (guarded walker.now) None
        (tree.Do from (statement_in walker.now.program.table body.now)
        (value_at walker.now.program.table condition)) goes walk.old walk.new) }
{
    walk.enter()?;
    round(walker, walk, from, body)?;
    part(walker, walk, from, Some(condition))?;
    walk.leave()?;
    Ok(true)
}

// A `for`, whose first part may not go on.
#[cycle(statements)]
fn for_statement(
    walker: &Walker<'_, '_>,
    walk: &mut Walk,
    from: u32,
    first: &[Statement],
    condition: Option<NodeId>,
    last: Option<NodeId>,
    body: &Statement,
    within: Option<u32>,
) -> Result<bool, AllocError>
    requires first { AllStatements walker.now.program.table first.now }
    requires condition { IsMaybeAt walker.now.program.table condition }
    requires last { IsMaybeAt walker.now.program.table last }
    requires body { IsStatement walker.now.program.table body.now }
    requires walk { IsWalkOf walker.now.sayings walk.old }
    ensures { IfOk result (λ goes. StatementWalked (guarded walker.now) within
        (tree.For from (statements_in walker.now.program.table first.now)
        (maybe_at walker.now.program.table condition) (maybe_at walker.now.program.table last)
        (statement_in walker.now.program.table body.now)) goes walk.old walk.new) }
{
    let goes = walk_statements(walker, walk, first, within)?;
    if !goes {
        return Ok(false);
    }
    for_loop(walker, walk, from, condition, last, body)
}

// A `for` without its first part.
#[cycle(statements)]
fn for_loop(
    walker: &Walker<'_, '_>,
    walk: &mut Walk,
    from: u32,
    condition: Option<NodeId>,
    last: Option<NodeId>,
    body: &Statement,
) -> Result<bool, AllocError>
    requires condition { IsMaybeAt walker.now.program.table condition }
    requires last { IsMaybeAt walker.now.program.table last }
    requires body { IsStatement walker.now.program.table body.now }
    requires walk { IsWalkOf walker.now.sayings walk.old }
    ensures { IfOk result (λ goes. StatementWalked (guarded walker.now) None
        (tree.For from tree.NoStatements (maybe_at walker.now.program.table condition)
        (maybe_at walker.now.program.table last) (statement_in walker.now.program.table body.now))
        goes walk.old walk.new) }
{
    walk.enter()?;
    part(walker, walk, from, condition)?;
    round(walker, walk, from, body)?;
    part(walker, walk, from, last)?;
    walk.leave()?;
    Ok(true)
}

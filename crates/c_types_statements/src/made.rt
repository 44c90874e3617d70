//! Statements of their parts.

ghost use Rattle.std.specs.Prelude.{◌≡◌, IfOk};
ghost use Rattle.c_types_rules.specs.TypedTree as tree;
ghost use Rattle.c_types_rules.specs.TypedTree.{MaybeValue, Statements, Value};
ghost use Rattle.c_types_nodes.specs.Tables.{Table};
ghost use Rattle.c_types_operators.specs.Answers.{IsAt};
ghost use Rattle.c_types_rules.specs.Statements.{evaluated as evaluated_by_rules};
ghost use Rattle.c_types_statements.specs.Typed.{MaybeStands, StatementStands, StatementsStand};

use c_types_nodes::NodeId;
use c_types_program::Statement;
use std::alloc::{AllocError, Global};

/// Statements one after another.
pub fn block(statements: Vec<Statement>) -> Statement
    ensures { (t : Table) (xs : Statements) → StatementsStand t xs statements.items →
        StatementStands t (tree.Block xs) result }
{
    Statement::Block(statements)
}

/// A value that isn't used, where there is one.
pub fn evaluated(alloc: Global, value: Option<NodeId>) -> Statement
    ensures { (t : Table) (x : MaybeValue) → MaybeStands t x value →
        StatementStands t (evaluated_by_rules x) result }
{
    match value {
        None => Statement::Block(Vec::new(alloc)),
        Some(value) => Statement::Evaluate(value),
    }
}

/// `if`
pub fn choice(alloc: Global, condition: NodeId, then: Statement) -> Result<Statement, AllocError>
    ensures { IfOk result (λ s. (t : Table) (x : Value) (a : tree.Statement) → IsAt t x condition →
        StatementStands t a then → StatementStands t (tree.If x a) s) }
{
    let then = Box::new(alloc, then)?;
    Ok(Statement::If(condition, then))
}

/// `if` and `else`
pub fn choice_of_two(
    alloc: Global,
    condition: NodeId,
    then: Statement,
    otherwise: Statement,
) -> Result<Statement, AllocError>
    ensures { IfOk result (λ s. (t : Table) (x : Value) (a b : tree.Statement) → IsAt t x condition →
        StatementStands t a then → StatementStands t b otherwise → StatementStands t (tree.IfElse x a b) s) }
{
    let then = Box::new(alloc, then)?;
    let otherwise = Box::new(alloc, otherwise)?;
    Ok(Statement::IfElse(condition, then, otherwise))
}

/// `while` at this offset
pub fn while_loop(
    alloc: Global,
    from: u32,
    condition: NodeId,
    body: Statement,
) -> Result<Statement, AllocError>
    ensures { IfOk result (λ s. (t : Table) (x : Value) (a : tree.Statement) → IsAt t x condition →
        StatementStands t a body → StatementStands t (tree.While from x a) s) }
{
    let body = Box::new(alloc, body)?;
    Ok(Statement::While {
        from,
        condition,
        body,
    })
}

/// `do` at this offset
pub fn do_loop(
    alloc: Global,
    from: u32,
    body: Statement,
    condition: NodeId,
) -> Result<Statement, AllocError>
    ensures { IfOk result (λ s. (t : Table) (x : Value) (a : tree.Statement) → IsAt t x condition →
        StatementStands t a body → StatementStands t (tree.Do from a x) s) }
{
    let body = Box::new(alloc, body)?;
    Ok(Statement::Do {
        from,
        body,
        condition,
    })
}

/// `for` at this offset
pub fn for_loop(
    alloc: Global,
    from: u32,
    first: Vec<Statement>,
    condition: Option<NodeId>,
    last: Option<NodeId>,
    body: Statement,
) -> Result<Statement, AllocError>
    ensures { IfOk result (λ s. (t : Table) (xs : Statements) (x y : MaybeValue) (a : tree.Statement) →
        StatementsStand t xs first.items → MaybeStands t x condition → MaybeStands t y last →
        StatementStands t a body → StatementStands t (tree.For from xs x y a) s) }
{
    let body = Box::new(alloc, body)?;
    Ok(Statement::For {
        from,
        first,
        condition,
        last,
        body,
    })
}

//! Statements (C11 6.8).

ghost use Rattle.std.specs.Prelude.{◌≡◌, length};
ghost use Rattle.std.specs.List.{All};
ghost use Rattle.c_syntax.specs.Stands.{StandEntries, StandsEntry, StandsStmt};
ghost use Rattle.c_syntax.specs.Syntax as syntax;
ghost use Rattle.c_syntax.specs.Syntax.{Block, Entries, Stmt};
ghost use Rattle.c_types_table.specs.Tables.{IsBelow};
ghost use Rattle.c_types_rules.specs.Statements.{entries as entries_by_rules, entry as entry_by_rules, statement as statement_by_rules};
ghost use Rattle.c_types_expressions.specs.Found.{Finds, Stays, StaysAround};
ghost use Rattle.c_types_statements.specs.Typed.{AddsDeclared, AreTyped, IsTyped, declared_in, place_in};
ghost use Rattle.c_types_statements.specs.Walks.{AreEntries, IsEntry, IsStmt};

use crate::choices::{choice, choice_of_two};
use crate::locals::declare_locals;
use crate::loops::{Head, do_loop, for_loop, while_loop};
use crate::made;
use crate::place::Surroundings;
use crate::plain::{evaluated, in_loop_only, returned};
use c_syntax::{Entry, StmtId, StmtKind, Tree};
use c_types_environment::{Environment, append};
use c_types_operators::TypeError;
use c_types_program::Statement;
use c_types_table::TypeId;

/// What a statement is as a typed one. `locals` has the types of the parameters and locals before it, and gets those of its own.
///
/// `Rule` names the first rule that is broken in it, with the offset of the node that breaks it. Notes where an object is too large.
#[cycle(walk)]
pub fn statement(
    env: &mut Environment,
    locals: &mut Vec<TypeId>,
    tree: &Tree,
    id: StmtId,
    place: Surroundings,
) -> Result<Statement, TypeError>
    // The number stands for a statement whose numbers are such as tokens are.
    requires id { IsStmt tree.now id }
    requires place { IsBelow (length env.old.table.types) place.result }
    requires locals { All (IsBelow (length env.old.table.types)) locals.old.items }
    // Where it stands for s, the answer and the locals are what the rules say of s.
    ensures agrees { (s : Stmt) → StandsStmt tree.now id s →
        Finds env.old env.new (IsTyped env.new locals.new.items)
        (statement_by_rules s (place_in env.old place) (declared_in env.old locals.old.items)) result }
    // What is declared, and what numbers stand for, is as before, also after an error.
    ensures kept { Stays env.old env.new }
    ensures locals { All (IsBelow (length env.new.table.types)) locals.new.items }
{
    let node = tree.stmt(id);
    match &node.kind {
        StmtKind::Block(items) => block(env, locals, tree, items.as_slice(), place),
        StmtKind::Expr(value) => evaluated(env, tree, *value),
        StmtKind::If(test, then, otherwise) => match otherwise {
            None => choice(env, locals, tree, *test, *then, place),
            Some(otherwise) => { choice_of_two(env, locals, tree, *test, *then, *otherwise, place) }
        },
        StmtKind::While(test, body) => {
            while_loop(env, locals, tree, node.from, *test, *body, place)
        },
        StmtKind::Do(body, test) => { do_loop(env, locals, tree, node.from, *body, *test, place) },
        StmtKind::For(first, test, last, body) => {
            let head = Head {
                from: node.from,
                test: *test,
                last: *last,
            };
            for_loop(env, locals, tree, first, head, *body, place)
        }
        StmtKind::Break => in_loop_only(node.from, place, Statement::Break),
        StmtKind::Continue => in_loop_only(node.from, place, Statement::Continue),
        StmtKind::Return(value) => returned(env, tree, node.from, place.result, *value),
    }
}

// A block, whose names end with it (C11 6.8.2).
#[cycle(walk)]
fn block(
    env: &mut Environment,
    locals: &mut Vec<TypeId>,
    tree: &Tree,
    items: &[Entry],
    place: Surroundings,
) -> Result<Statement, TypeError>
    requires items { AreEntries tree.now items.now }
    requires place { IsBelow (length env.old.table.types) place.result }
    requires locals { All (IsBelow (length env.old.table.types)) locals.old.items }
    ensures agrees { (es : Entries) → StandEntries tree.now items.now es →
        Finds env.old env.new (IsTyped env.new locals.new.items)
        (statement_by_rules (Block 0 es) (place_in env.old place) (declared_in env.old locals.old.items))
        result }
    ensures kept { Stays env.old env.new }
    ensures locals { All (IsBelow (length env.new.table.types)) locals.new.items }
{
    env.open_scope()?;
    let statements = entries(env, locals, tree, items, place);
    env.close_scope();
    Ok(made::block(statements?))
}

/// What stands in a block whose scope is the innermost one. Errors are as for `statement`; some of its names may then be declared.
#[cycle(walk)]
pub fn entries(
    env: &mut Environment,
    locals: &mut Vec<TypeId>,
    tree: &Tree,
    items: &[Entry],
    place: Surroundings,
) -> Result<Vec<Statement>, TypeError>
    requires items { AreEntries tree.now items.now }
    requires place { IsBelow (length env.old.table.types) place.result }
    requires locals { All (IsBelow (length env.old.table.types)) locals.old.items }
    ensures agrees { (es : Entries) → StandEntries tree.now items.now es →
        Finds env.old env.new (AreTyped env.new locals.new.items)
        (entries_by_rules es (place_in env.old place) (declared_in env.old locals.old.items)) result }
    ensures kept { StaysAround env.old env.new }
    ensures locals { All (IsBelow (length env.new.table.types)) locals.new.items }
{
    let mut statements = Vec::with_capacity(env.alloc(), items.len())?;
    for item in items {
        entry(env, locals, tree, item, place, &mut statements)?;
    }
    Ok(statements)
}

// An entry of a block whose scope is the innermost one. Its statements are put after others.
#[cycle(walk)]
fn entry(
    env: &mut Environment,
    locals: &mut Vec<TypeId>,
    tree: &Tree,
    item: &Entry,
    place: Surroundings,
    statements: &mut Vec<Statement>,
) -> Result<(), TypeError>
    requires item { IsEntry tree.now item.now }
    requires place { IsBelow (length env.old.table.types) place.result }
    requires locals { All (IsBelow (length env.old.table.types)) locals.old.items }
    ensures agrees { (e : syntax.Entry) → StandsEntry tree.now item.now e →
        Finds env.old env.new (AddsDeclared env.new locals.new.items statements.old.items
        statements.new.items) (entry_by_rules e (place_in env.old place)
        (declared_in env.old locals.old.items)) result }
    ensures kept { StaysAround env.old env.new }
    ensures locals { All (IsBelow (length env.new.table.types)) locals.new.items }
{
    match item {
        Entry::Local(ids) => declare_locals(env, locals, tree, ids.as_slice(), statements),
        Entry::Stmt(id) => {
            let made = statement(env, locals, tree, *id, place)?;
            append(statements, made)?;
            Ok(())
        }
    }
}

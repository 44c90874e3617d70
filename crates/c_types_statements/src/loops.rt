//! Loops (C11 6.8.5).

ghost use Rattle.std.specs.Prelude.{◌≡◌, length};
ghost use Rattle.std.specs.List.{All};
ghost use Rattle.c_syntax.specs.Stands.{Stands, StandsFirst, StandsMaybe, StandsStmt};
ghost use Rattle.c_syntax.specs.Syntax as syntax;
ghost use Rattle.c_syntax.specs.Syntax.{Do, Expr, For, MaybeExpr, Stmt, While};
ghost use Rattle.c_types_table.specs.Tables.{IsBelow};
ghost use Rattle.c_types_rules.specs.Statements as rules;
ghost use Rattle.c_types_rules.specs.Statements.{first as first_by_rules, statement as statement_by_rules};
ghost use Rattle.c_types_expressions.specs.Found.{Finds, Stays, StaysAround};
ghost use Rattle.c_types_expressions.specs.Walks.{IsExpr};
ghost use Rattle.c_types_statements.specs.Pieces.{for_here as for_by_rules};
ghost use Rattle.c_types_statements.specs.Typed.{AreDeclaring, IsTyped, declared_in, place_in};
ghost use Rattle.c_types_statements.specs.Walks.{IsFirst, IsMaybeExpr, IsStmt};

use crate::locals::declare_locals;
use crate::made;
use crate::place::Surroundings;
use crate::statements::statement;
use crate::values::{condition, maybe_condition, maybe_value, value};
use c_syntax::{ExprId, First, StmtId, Tree};
use c_types_environment::{Environment, append};
use c_types_operators::TypeError;
use c_types_program::Statement;
use c_types_table::TypeId;

/// A `while` at this offset. Errors are as for `statement`.
#[cycle(walk)]
pub fn while_loop(
    env: &mut Environment,
    locals: &mut Vec<TypeId>,
    tree: &Tree,
    from: u32,
    test: ExprId,
    body: StmtId,
    place: Surroundings,
) -> Result<Statement, TypeError>
    requires test { IsExpr tree.now test }
    requires body { IsStmt tree.now body }
    requires place { IsBelow (length env.old.table.types) place.result }
    requires locals { All (IsBelow (length env.old.table.types)) locals.old.items }
    ensures agrees { (x : Expr) (s : Stmt) → Stands tree.now test x → StandsStmt tree.now body s →
        Finds env.old env.new (IsTyped env.new locals.new.items)
        (statement_by_rules (While from x s) (place_in env.old place)
        (declared_in env.old locals.old.items)) result }
    ensures kept { Stays env.old env.new }
    ensures locals { All (IsBelow (length env.new.table.types)) locals.new.items }
{
    let test = condition(env, tree, test)?;
    let body = statement(env, locals, tree, body, place.looping())?;
    Ok(made::while_loop(env.alloc(), from, test, body)?)
}

/// A `do` at this offset. Errors are as for `statement`.
#[cycle(walk)]
pub fn do_loop(
    env: &mut Environment,
    locals: &mut Vec<TypeId>,
    tree: &Tree,
    from: u32,
    body: StmtId,
    test: ExprId,
    place: Surroundings,
) -> Result<Statement, TypeError>
    requires body { IsStmt tree.now body }
    requires test { IsExpr tree.now test }
    requires place { IsBelow (length env.old.table.types) place.result }
    requires locals { All (IsBelow (length env.old.table.types)) locals.old.items }
    ensures agrees { (s : Stmt) (x : Expr) → StandsStmt tree.now body s → Stands tree.now test x →
        Finds env.old env.new (IsTyped env.new locals.new.items)
        (statement_by_rules (Do from s x) (place_in env.old place) (declared_in env.old locals.old.items))
        result }
    ensures kept { Stays env.old env.new }
    ensures locals { All (IsBelow (length env.new.table.types)) locals.new.items }
{
    let done = statement(env, locals, tree, body, place.looping())?;
    let test = condition(env, tree, test)?;
    Ok(made::do_loop(env.alloc(), from, done, test)?)
}

/// The offset of a `for`, what decides whether it goes on, and what it evaluates after its body, where they are there.
#[derive(Clone, Copy)]
pub struct Head {
    pub from: u32,
    pub test: Option<ExprId>,
    pub last: Option<ExprId>,
}

/// A `for`, whose names end with it. Errors are as for `statement`.
#[cycle(walk)]
pub fn for_loop(
    env: &mut Environment,
    locals: &mut Vec<TypeId>,
    tree: &Tree,
    first: &First,
    head: Head,
    body: StmtId,
    place: Surroundings,
) -> Result<Statement, TypeError>
    requires first { IsFirst tree.now first.now }
    requires test { IsMaybeExpr tree.now head.test }
    requires last { IsMaybeExpr tree.now head.last }
    requires body { IsStmt tree.now body }
    requires place { IsBelow (length env.old.table.types) place.result }
    requires locals { All (IsBelow (length env.old.table.types)) locals.old.items }
    ensures agrees { (f : syntax.First) (x y : MaybeExpr) (s : Stmt) → StandsFirst tree.now first.now f →
        StandsMaybe tree.now head.test x → StandsMaybe tree.now head.last y → StandsStmt tree.now body s →
        Finds env.old env.new (IsTyped env.new locals.new.items)
        (statement_by_rules (For head.from f x y s) (place_in env.old place)
        (declared_in env.old locals.old.items)) result }
    ensures kept { Stays env.old env.new }
    ensures locals { All (IsBelow (length env.new.table.types)) locals.new.items }
{
    env.open_scope()?;
    let made = for_here(env, locals, tree, first, head, body, place);
    env.close_scope();
    made
}

// A `for` whose scope is the innermost one.
#[cycle(walk)]
fn for_here(
    env: &mut Environment,
    locals: &mut Vec<TypeId>,
    tree: &Tree,
    first: &First,
    head: Head,
    body: StmtId,
    place: Surroundings,
) -> Result<Statement, TypeError>
    requires first { IsFirst tree.now first.now }
    requires test { IsMaybeExpr tree.now head.test }
    requires last { IsMaybeExpr tree.now head.last }
    requires body { IsStmt tree.now body }
    requires place { IsBelow (length env.old.table.types) place.result }
    requires locals { All (IsBelow (length env.old.table.types)) locals.old.items }
    ensures agrees { (f : syntax.First) (x y : MaybeExpr) (s : Stmt) → StandsFirst tree.now first.now f →
        StandsMaybe tree.now head.test x → StandsMaybe tree.now head.last y → StandsStmt tree.now body s →
        Finds env.old env.new (IsTyped env.new locals.new.items)
        (for_by_rules head.from f x y s (place_in env.old place) (declared_in env.old locals.old.items))
        result }
    ensures kept { StaysAround env.old env.new }
    ensures locals { All (IsBelow (length env.new.table.types)) locals.new.items }
{
    let first = first_part(env, locals, tree, first)?;
    let test = maybe_condition(env, tree, head.test)?;
    let last = maybe_value(env, tree, head.last)?;
    let body = statement(env, locals, tree, body, place.looping())?;
    Ok(made::for_loop(env.alloc(), head.from, first, test, last, body)?)
}

// The first part of a `for` whose scope is the innermost one.
fn first_part(
    env: &mut Environment,
    locals: &mut Vec<TypeId>,
    tree: &Tree,
    first: &First,
) -> Result<Vec<Statement>, TypeError>
    requires first { IsFirst tree.now first.now }
    requires locals { All (IsBelow (length env.old.table.types)) locals.old.items }
    ensures agrees { (f : syntax.First) (p : rules.Surroundings) → StandsFirst tree.now first.now f →
        Finds env.old env.new (AreDeclaring env.new locals.new.items)
        (first_by_rules f p (declared_in env.old locals.old.items)) result }
    ensures kept { StaysAround env.old env.new }
    ensures locals { All (IsBelow (length env.new.table.types)) locals.new.items }
{
    match first {
        First::None => Ok(Vec::new(env.alloc())),
        First::Local(ids) => {
            let mut statements = Vec::new(env.alloc());
            declare_locals(env, locals, tree, ids.as_slice(), &mut statements)?;
            Ok(statements)
        }
        First::Expr(id) => {
            let value = value(env, tree, *id)?;
            let mut statements = Vec::new(env.alloc());
            append(&mut statements, Statement::Evaluate(value))?;
            Ok(statements)
        }
    }
}

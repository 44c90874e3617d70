//! `if` (C11 6.8.4.1).

ghost use Rattle.std.specs.Prelude.{◌≡◌, length};
ghost use Rattle.std.specs.List.{All};
ghost use Rattle.c_syntax.specs.Stands.{Stands, StandsStmt};
ghost use Rattle.c_syntax.specs.Syntax.{Expr, If, IfElse, Stmt};
ghost use Rattle.c_types_table.specs.Tables.{IsBelow};
ghost use Rattle.c_types_rules.specs.Statements.{statement as statement_by_rules};
ghost use Rattle.c_types_expressions.specs.Found.{Finds, Stays};
ghost use Rattle.c_types_expressions.specs.Walks.{IsExpr};
ghost use Rattle.c_types_statements.specs.Typed.{IsTyped, declared_in, place_in};
ghost use Rattle.c_types_statements.specs.Walks.{IsStmt};

use crate::made;
use crate::place::Surroundings;
use crate::statements::statement;
use crate::values::condition;
use c_syntax::{ExprId, StmtId, Tree};
use c_types_environment::Environment;
use c_types_operators::TypeError;
use c_types_program::Statement;
use c_types_table::TypeId;

/// An `if` without `else`. Errors are as for `statement`.
#[cycle(walk)]
pub fn choice(
    env: &mut Environment,
    locals: &mut Vec<TypeId>,
    tree: &Tree,
    test: ExprId,
    then: StmtId,
    place: Surroundings,
) -> Result<Statement, TypeError>
    requires test { IsExpr tree.now test }
    requires then { IsStmt tree.now then }
    requires place { IsBelow (length env.old.table.types) place.result }
    requires locals { All (IsBelow (length env.old.table.types)) locals.old.items }
    ensures agrees { (x : Expr) (s : Stmt) → Stands tree.now test x → StandsStmt tree.now then s →
        Finds env.old env.new (IsTyped env.new locals.new.items)
        (statement_by_rules (If 0 x s) (place_in env.old place) (declared_in env.old locals.old.items))
        result }
    ensures kept { Stays env.old env.new }
    ensures locals { All (IsBelow (length env.new.table.types)) locals.new.items }
{
    let test = condition(env, tree, test)?;
    let then = statement(env, locals, tree, then, place)?;
    Ok(made::choice(env.alloc(), test, then)?)
}

/// An `if` with `else`. Errors are as for `statement`.
#[cycle(walk)]
pub fn choice_of_two(
    env: &mut Environment,
    locals: &mut Vec<TypeId>,
    tree: &Tree,
    test: ExprId,
    then: StmtId,
    otherwise: StmtId,
    place: Surroundings,
) -> Result<Statement, TypeError>
    requires test { IsExpr tree.now test }
    requires then { IsStmt tree.now then }
    requires otherwise { IsStmt tree.now otherwise }
    requires place { IsBelow (length env.old.table.types) place.result }
    requires locals { All (IsBelow (length env.old.table.types)) locals.old.items }
    ensures agrees { (x : Expr) (s z : Stmt) → Stands tree.now test x → StandsStmt tree.now then s →
        StandsStmt tree.now otherwise z → Finds env.old env.new (IsTyped env.new locals.new.items)
        (statement_by_rules (IfElse 0 x s z) (place_in env.old place)
        (declared_in env.old locals.old.items)) result }
    ensures kept { Stays env.old env.new }
    ensures locals { All (IsBelow (length env.new.table.types)) locals.new.items }
{
    let test = condition(env, tree, test)?;
    let then = statement(env, locals, tree, then, place)?;
    let otherwise = statement(env, locals, tree, otherwise, place)?;
    Ok(made::choice_of_two(env.alloc(), test, then, otherwise)?)
}

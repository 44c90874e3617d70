// Actions that make statements.

ghost use Rattle.c_parser_tree.specs.IsMade.{Makes};
ghost use Rattle.c_parser_tree.specs.Made.{made_entry, made_stmt, made_control};

use crate::builder::{BuildError, Builder, empty};
use c_parser_moves::Action;
use c_syntax::{Entry, First, StmtKind};

impl Builder {
    /// Makes what a block or a `for` holds besides statements, or what the next kinds of action make.
    #[tactic(auto, unfolding(crate::specs::Made::made_entry))]
    pub fn make_entry(&mut self, action: Action) -> Result<(), BuildError>
        ensures { Makes result self.old self.new (made_entry action) }
    {
        match action {
            Action::NoEntries => self.put_entries(empty(self.alloc)),
            Action::AddLocal => {
                let decls = self.pop_decls()?;
                self.add_entry(Entry::Local(decls))
            }
            Action::AddStmt => {
                let stmt = self.pop_stmt()?;
                self.add_entry(Entry::Stmt(stmt))
            }
            Action::NoFirst => self.put_first(First::None),
            Action::LocalFirst => {
                let decls = self.pop_decls()?;
                self.put_first(First::Local(decls))
            }
            Action::ExprFirst => {
                let expr = self.pop_expr()?;
                self.put_first(First::Expr(expr))
            }
            other => self.make_stmt(other),
        }
    }

    /// Makes a statement without statements of its own, or a block, or what the next kinds of action make.
    #[tactic(auto, unfolding(crate::specs::Made::made_stmt))]
    pub fn make_stmt(&mut self, action: Action) -> Result<(), BuildError>
        ensures { Makes result self.old self.new (made_stmt action) }
    {
        match action {
            Action::Block(from) => {
                let entries = self.pop_entries()?;
                self.put_stmt(from, StmtKind::Block(entries))
            }
            Action::Expression(from) => {
                let expr = self.pop_maybe()?;
                self.put_stmt(from, StmtKind::Expr(expr))
            }
            Action::Break(from) => self.put_stmt(from, StmtKind::Break),
            Action::Continue(from) => self.put_stmt(from, StmtKind::Continue),
            Action::Return(from) => {
                let value = self.pop_maybe()?;
                self.put_stmt(from, StmtKind::Return(value))
            }
            other => self.make_control(other),
        }
    }

    /// Makes a statement with statements of its own.
    #[tactic(auto, unfolding(crate::specs::Made::made_control))]
    pub fn make_control(&mut self, action: Action) -> Result<(), BuildError>
        ensures { Makes result self.old self.new (made_control action) }
    {
        match action {
            Action::If(from) => {
                let (test, then) = self.pop_tested()?;
                self.put_stmt(from, StmtKind::If(test, then, None))
            }
            Action::IfElse(from) => {
                let other = self.pop_stmt()?;
                let (test, then) = self.pop_tested()?;
                self.put_stmt(from, StmtKind::If(test, then, Some(other)))
            }
            Action::While(from) => {
                let (test, body) = self.pop_tested()?;
                self.put_stmt(from, StmtKind::While(test, body))
            }
            Action::Do(from) => {
                let test = self.pop_expr()?;
                let body = self.pop_stmt()?;
                self.put_stmt(from, StmtKind::Do(body, test))
            }
            Action::For(from) => {
                let body = self.pop_stmt()?;
                let step = self.pop_maybe()?;
                let test = self.pop_maybe()?;
                let first = self.pop_first()?;
                self.put_stmt(from, StmtKind::For(first, test, step, body))
            }
            _ => Err(BuildError::Unfit),
        }
    }
}

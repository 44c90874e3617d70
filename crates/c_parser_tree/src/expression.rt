// Actions that make expressions.

ghost use Rattle.c_parser_tree.specs.IsMade.{Makes};
ghost use Rattle.c_parser_tree.specs.Made.{made_leaf, made_part, made_pair, made_mixed, made_exprs};

use crate::builder::{BuildError, Builder, empty};
use c_parser_moves::Action;
use c_syntax::ExprKind;

impl Builder {
    /// Makes an expression without parts, or what the next kinds of action make.
    #[tactic(auto, unfolding(crate::specs::Made::made_leaf))]
    pub fn make_leaf(&mut self, action: Action) -> Result<(), BuildError>
        ensures { Makes result self.old self.new (made_leaf action) }
    {
        match action {
            Action::Name(from, name) => self.put_expr(from, ExprKind::Name(name)),
            Action::Number {
                from,
                value,
                suffix,
                decimal,
            } => self.put_expr(
                from,
                ExprKind::Number {
                    value,
                    suffix,
                    decimal,
                },
            ),
            Action::Char(from, value) => self.put_expr(from, ExprKind::Char(value)),
            Action::Text(from, text) => self.put_expr(from, ExprKind::Text(text)),
            other => self.make_part(other),
        }
    }

    /// Makes an expression of one, or what the next kinds of action make.
    #[tactic(auto, unfolding(crate::specs::Made::made_part))]
    pub fn make_part(&mut self, action: Action) -> Result<(), BuildError>
        ensures { Makes result self.old self.new (made_part action) }
    {
        match action {
            Action::Prefix(from, sign) => {
                let operand = self.pop_expr()?;
                self.put_expr(from, ExprKind::Prefix(sign, operand))
            }
            Action::Postfix(from, sign) => {
                let operand = self.pop_expr()?;
                self.put_expr(from, ExprKind::Postfix(sign, operand))
            }
            Action::SizeofExpr(from) => {
                let operand = self.pop_expr()?;
                self.put_expr(from, ExprKind::SizeofExpr(operand))
            }
            Action::Member(from, name) => {
                let object = self.pop_expr()?;
                self.put_expr(from, ExprKind::Member(object, name))
            }
            Action::Arrow(from, name) => {
                let pointer = self.pop_expr()?;
                self.put_expr(from, ExprKind::Arrow(pointer, name))
            }
            other => self.make_pair(other),
        }
    }

    /// Makes an expression of two, or what the next kinds of action make.
    #[tactic(auto, unfolding(crate::specs::Made::made_pair))]
    pub fn make_pair(&mut self, action: Action) -> Result<(), BuildError>
        ensures { Makes result self.old self.new (made_pair action) }
    {
        match action {
            Action::Binary(from, sign) => {
                let (left, right) = self.pop_two_exprs()?;
                self.put_expr(from, ExprKind::Binary(sign, left, right))
            }
            Action::Assign(from, sign) => {
                let (target, value) = self.pop_two_exprs()?;
                self.put_expr(from, ExprKind::Assign(sign, target, value))
            }
            Action::Index(from) => {
                let (array, index) = self.pop_two_exprs()?;
                self.put_expr(from, ExprKind::Index(array, index))
            }
            other => self.make_mixed(other),
        }
    }

    /// Makes an expression of three, of a type or of a list, or what the next kinds of action make.
    #[tactic(auto, unfolding(crate::specs::Made::made_mixed))]
    pub fn make_mixed(&mut self, action: Action) -> Result<(), BuildError>
        ensures { Makes result self.old self.new (made_mixed action) }
    {
        match action {
            Action::Cond(from) => {
                let last = self.pop_expr()?;
                let (test, middle) = self.pop_two_exprs()?;
                self.put_expr(from, ExprKind::Cond(test, middle, last))
            }
            Action::SizeofType(from) => {
                let type_name = self.pop_decl()?;
                self.put_expr(from, ExprKind::SizeofType(type_name))
            }
            Action::Cast(from) => {
                let operand = self.pop_expr()?;
                let type_name = self.pop_decl()?;
                self.put_expr(from, ExprKind::Cast(type_name, operand))
            }
            Action::Call(from) => {
                let arguments = self.pop_exprs()?;
                let function = self.pop_expr()?;
                self.put_expr(from, ExprKind::Call(function, arguments))
            }
            other => self.make_exprs(other),
        }
    }

    /// Makes a list of expressions, or an expression that may lack, or what the next kinds of action make.
    #[tactic(auto, unfolding(crate::specs::Made::made_exprs))]
    pub fn make_exprs(&mut self, action: Action) -> Result<(), BuildError>
        ensures { Makes result self.old self.new (made_exprs action) }
    {
        match action {
            Action::NoExprs => self.put_exprs(empty(self.alloc)),
            Action::AddExpr => {
                let last = self.pop_expr()?;
                self.add_expr(last)
            }
            Action::NoExpr => self.put_maybe(None),
            Action::OneExpr => {
                let expr = self.pop_expr()?;
                self.put_maybe(Some(expr))
            }
            other => self.make_declarator(other),
        }
    }
}

//! Code of statements.

ghost use Rattle.std.specs.Prelude.{◌≡◌, ◌-◌, ◌<◌, ◌≤◌, ◌++◌, length, OnOk};
ghost use Rattle.c_types_nodes.specs.Tables.{IsValueAt, value_at};
ghost use Rattle.c_types_program.specs.Statements.{AllStatements, IsMaybeAt, IsStatement, maybe_at, statement_in, statements_in};
ghost use Rattle.c_types_rules.specs.TypedTree as tree;
ghost use Rattle.c_lower_placement.specs.Code.{statement_code, statements_code};
ghost use Rattle.c_lower_bodies.specs.Making.{making};
ghost use Rattle.c_lower_bodies.specs.TypedCode.{Turns, guarded_code};

use crate::backward::Backward;
use crate::emitter::Emitter;
use c_code::Instr;
use c_types_nodes::NodeId;
use c_types_program::Statement;
use std::alloc::AllocError;

// The head of a loop, to which the way back leads; so many instructions are after the loop.
fn turn(code: &mut Backward, end: usize) -> Result<(), AllocError>
    requires { end < length code.old }
    ensures { OnOk result (Turns code.old code.new end) }
{
    code.replace(end, Instr::GoBack(code.len() - end - 1));
    code.put(Instr::Turn)
}

impl Emitter<'_, '_, '_> {
    /// Puts the code of a statement before the other, of which so many instructions follow where a `break` leads to and
    /// where a `continue` does. `AllocError` only where there is no memory.
    #[cycle(statements)]
    pub(crate) fn statement(
        &self,
        code: &mut Backward,
        statement: &Statement,
        stop: usize,
        again: usize,
    ) -> Result<(), AllocError>
        requires inside { IsStatement self.now.declared.table statement.now }
        requires stop { stop ≤ length code.old }
        requires again { again ≤ length code.old }
        ensures { OnOk result (code.new ≡ statement_code
            (statement_in self.now.declared.table statement.now) (making self.now) (length code.old - stop)
            (length code.old - again) ++ code.old) }
    {
        match statement {
            Statement::Block(statements) => self.statements(code, statements, stop, again),
            Statement::Evaluate(value) => self.evaluate(code, *value),
            Statement::Initialise { place, ty, value } => self.initialise(
                code, *place, *ty, *value,
            ),
            Statement::If(condition, then) => {
                let end = code.len();
                self.guarded(code, *condition, then, stop, again, end)
            }
            Statement::IfElse(condition, then, other) => {
                let end = code.len();
                self.statement(code, other, stop, again)?;
                let middle = code.len();
                code.put(Instr::GoOn(middle - end))?;
                self.guarded(code, *condition, then, stop, again, middle)
            }
            Statement::While {
                condition,
                body,
                ..
            } => self.while_loop(code, *condition, body),
            Statement::Do {
                body,
                condition,
                ..
            } => self.do_loop(code, body, *condition),
            Statement::For {
                first,
                condition,
                last,
                body,
                ..
            } => {
                self.for_loop(code, *condition, *last, body)?;
                self.statements(code, first, stop, again)
            }
            Statement::Break => code.put(Instr::GoOn(code.len() - stop)),
            Statement::Continue => code.put(Instr::GoOn(code.len() - again)),
            Statement::Return { value, .. } => self.give(code, *value),
        }
    }

    // Statements, one after another.
    #[cycle(statements)]
    fn statements(
        &self,
        code: &mut Backward,
        statements: &[Statement],
        stop: usize,
        again: usize,
    ) -> Result<(), AllocError>
        requires inside { AllStatements self.now.declared.table statements.now }
        requires stop { stop ≤ length code.old }
        requires again { again ≤ length code.old }
        ensures { OnOk result (code.new ≡ statements_code
            (statements_in self.now.declared.table statements.now) (making self.now)
            (length code.old - stop) (length code.old - again) ++ code.old) }
    {
        for i in (0..statements.len()).rev() {
            self.statement(code, &statements[i], stop, again)?;
        }
        Ok(())
    }

    // A statement that is passed where the condition is 0, up to where so many instructions follow.
    #[cycle(statements)]
    fn guarded(
        &self,
        code: &mut Backward,
        condition: NodeId,
        then: &Statement,
        stop: usize,
        again: usize,
        end: usize,
    ) -> Result<(), AllocError>
        requires condition { IsValueAt self.now.declared.table condition }
        requires then { IsStatement self.now.declared.table then.now }
        requires stop { stop ≤ length code.old }
        requires again { again ≤ length code.old }
        requires end { end ≤ length code.old }
        ensures { OnOk result (code.new ≡ guarded_code (value_at self.now.declared.table condition)
            (statement_in self.now.declared.table then.now) (making self.now) (length code.old - stop)
            (length code.old - again) (length code.old - end) ++ code.old) }
    {
        self.statement(code, then, stop, again)?;
        code.put(Instr::SkipIfZero(code.len() - end))?;
        self.value(code, condition)
    }

    // Each round begins after the Turn: a `break` leads after the way back, and a `continue` onto it.
    #[cycle(statements)]
    fn while_loop(
        &self,
        code: &mut Backward,
        condition: NodeId,
        body: &Statement,
    ) -> Result<(), AllocError>
        requires condition { IsValueAt self.now.declared.table condition }
        requires body { IsStatement self.now.declared.table body.now }
        ensures { OnOk result (code.new ≡ statement_code
            (tree.While 0 (value_at self.now.declared.table condition)
            (statement_in self.now.declared.table body.now)) (making self.now) 0 0 ++ code.old) }
    {
        let end = code.len();
        code.put(Instr::GoBack(0))?;
        let again = code.len();
        self.guarded(code, condition, body, end, again, end)?;
        turn(code, end)
    }

    // A `continue` leads to the condition.
    #[cycle(statements)]
    fn do_loop(
        &self,
        code: &mut Backward,
        body: &Statement,
        condition: NodeId,
    ) -> Result<(), AllocError>
        requires body { IsStatement self.now.declared.table body.now }
        requires condition { IsValueAt self.now.declared.table condition }
        ensures { OnOk result (code.new ≡ statement_code
            (tree.Do 0 (statement_in self.now.declared.table body.now)
            (value_at self.now.declared.table condition)) (making self.now) 0 0 ++ code.old) }
    {
        let end = code.len();
        code.put(Instr::GoBack(0))?;
        code.put(Instr::SkipIfZero(1))?;
        self.value(code, condition)?;
        let test = code.len();
        self.statement(code, body, end, test)?;
        turn(code, end)
    }

    // A `for` without its first part. A `continue` leads to its last part.
    #[cycle(statements)]
    fn for_loop(
        &self,
        code: &mut Backward,
        condition: Option<NodeId>,
        last: Option<NodeId>,
        body: &Statement,
    ) -> Result<(), AllocError>
        requires condition { IsMaybeAt self.now.declared.table condition }
        requires last { IsMaybeAt self.now.declared.table last }
        requires body { IsStatement self.now.declared.table body.now }
        ensures { OnOk result (code.new ≡ statement_code
            (tree.For 0 tree.NoStatements (maybe_at self.now.declared.table condition)
            (maybe_at self.now.declared.table last) (statement_in self.now.declared.table body.now))
            (making self.now) 0 0 ++ code.old) }
    {
        let end = code.len();
        code.put(Instr::GoBack(0))?;
        self.last(code, last)?;
        let next = code.len();
        self.statement(code, body, end, next)?;
        self.test(code, condition, code.len() - end)?;
        turn(code, end)
    }
}

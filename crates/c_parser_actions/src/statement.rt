// The moves over statements.

ghost use Rattle.c_parser_moves.proofs.MachineSource.{condition, for_head, leaf, returned, stmt, do_while, done, block_end, entry, for_first, for_test, for_step};
ghost use Rattle.c_parser_actions.specs.Plans.{Plans};
ghost use Rattle.c_parser_actions.specs.Seen.{Goes};

use crate::parser::{Parser, Went, skip_one};
use crate::plan::{Acts, Plan, Then};
use c_lexer::{Kind, Token, Word};
use c_parser_moves::{Action, Begin, DeclaredIn, Frame, Next, Punctuator, else_first, mark_first};

#[tactic(auto, unfolding(c_parser_moves::proofs::MachineSource::condition))]
fn start_condition<'a>(what: Punctuator, frame: Frame, rest: &'a [Token]) -> Plan<'a>
    ensures { Plans result (condition what frame rest.now) }
{
    match what {
        Punctuator::Open => Plan::Do(Acts::None, Then::Read(frame, 1), rest),
        _ => Plan::Refuse(rest),
    }
}

#[tactic(auto, unfolding(c_parser_moves::proofs::MachineSource::for_head))]
fn start_for<'a>(what: Punctuator, from: u32, rest: &'a [Token]) -> Plan<'a>
    ensures { Plans result (for_head what from rest.now) }
{
    match what {
        Punctuator::Open => Plan::Do(Acts::None, Then::Go(Next::ForFirst(from)), rest),
        _ => Plan::Refuse(rest),
    }
}

#[tactic(auto, unfolding(c_parser_moves::proofs::MachineSource::leaf))]
fn end_break<'a>(what: Punctuator, from: u32, rest: &'a [Token]) -> Plan<'a>
    ensures { Plans result (leaf what (Action.Break from) rest.now) }
{
    match what {
        Punctuator::Semicolon => Plan::Do(
            Acts::One(Action::Break(from)),
            Then::Go(Next::StmtDone),
            rest,
        ),
        _ => Plan::Refuse(rest),
    }
}

#[tactic(auto, unfolding(c_parser_moves::proofs::MachineSource::leaf))]
fn end_continue<'a>(what: Punctuator, from: u32, rest: &'a [Token]) -> Plan<'a>
    ensures { Plans result (leaf what (Action.Continue from) rest.now) }
{
    match what {
        Punctuator::Semicolon => Plan::Do(
            Acts::One(Action::Continue(from)),
            Then::Go(Next::StmtDone),
            rest,
        ),
        _ => Plan::Refuse(rest),
    }
}

#[tactic(auto, unfolding(c_parser_moves::proofs::MachineSource::returned))]
fn start_return<'a>(what: Punctuator, from: u32, whole: &'a [Token], rest: &'a [Token]) -> Plan<'a>
    ensures { Plans result (returned what from whole.now rest.now) }
{
    match what {
        Punctuator::Semicolon => {
            Plan::Do(
                Acts::Two(Action::NoExpr, Action::Return(from)),
                Then::Go(Next::StmtDone),
                rest,
            )
        }
        _ => Plan::Do(Acts::None, Then::Read(Frame::Return(from), 1), whole),
    }
}

#[tactic(auto, unfolding(c_parser_moves::proofs::MachineSource::stmt))]
pub fn start_stmt<'a>(what: Begin, from: u32, whole: &'a [Token], rest: &'a [Token]) -> Plan<'a>
    ensures { Plans result (stmt what from whole.now rest.now) }
{
    let mark = mark_first(rest);
    let others = skip_one(rest);
    match what {
        Begin::Empty => {
            Plan::Do(
                Acts::Two(Action::NoExpr, Action::Expression(from)),
                Then::Go(Next::StmtDone),
                rest,
            )
        }
        Begin::Block => {
            Plan::Do(
                Acts::One(Action::NoEntries),
                Then::Open(Frame::Block(from), Next::Entry),
                rest,
            )
        }
        Begin::If => start_condition(mark, Frame::IfCond(from), others),
        Begin::While => start_condition(mark, Frame::WhileCond(from), others),
        Begin::Do => Plan::Do(
            Acts::None,
            Then::Open(Frame::DoBody(from), Next::Stmt),
            rest,
        ),
        Begin::For => start_for(mark, from, others),
        Begin::Break => end_break(mark, from, others),
        Begin::Continue => end_continue(mark, from, others),
        Begin::Return => start_return(mark, from, rest, others),
        Begin::Other => Plan::Do(Acts::None, Then::Read(Frame::Expression(from), 1), whole),
    }
}

#[tactic(auto, unfolding(c_parser_moves::proofs::MachineSource::do_on, c_parser_moves::proofs::MachineSource::do_while))]
fn after_do<'a>(from: u32, rest: &'a [Token]) -> Plan<'a>
    ensures { Plans result (do_while from rest.now) }
{
    match rest {
        [] => Plan::Refuse(rest),
        [first, others @ ..] => match &first.kind {
            Kind::Word(Word::While) => {
                start_condition(mark_first(others), Frame::DoCond(from), skip_one(others))
            }
            _ => Plan::Refuse(others),
        },
    }
}

#[tactic(auto, unfolding(c_parser_moves::proofs::MachineSource::done))]
fn end_then<'a>(from: u32, rest: &'a [Token]) -> Plan<'a>
    ensures { Plans result (done (Frame.IfThen from) rest.now) }
{
    if else_first(rest) {
        Plan::Do(
            Acts::None,
            Then::Open(Frame::IfElse(from), Next::Stmt),
            skip_one(rest),
        )
    } else {
        Plan::Do(Acts::One(Action::If(from)), Then::Go(Next::StmtDone), rest)
    }
}

#[tactic(auto, unfolding(c_parser_moves::proofs::MachineSource::done))]
pub fn give_stmt<'a>(frame: Frame, rest: &'a [Token]) -> Plan<'a>
    ensures { Plans result (done frame rest.now) }
{
    match frame {
        Frame::Block(_) => Plan::Do(
            Acts::One(Action::AddStmt),
            Then::Open(frame, Next::Entry),
            rest,
        ),
        Frame::IfThen(from) => end_then(from, rest),
        Frame::IfElse(from) => {
            Plan::Do(
                Acts::One(Action::IfElse(from)),
                Then::Go(Next::StmtDone),
                rest,
            )
        }
        Frame::WhileBody(from) => {
            Plan::Do(
                Acts::One(Action::While(from)),
                Then::Go(Next::StmtDone),
                rest,
            )
        }
        Frame::DoBody(from) => after_do(from, rest),
        Frame::ForBody(from) => Plan::Do(
            Acts::One(Action::For(from)),
            Then::Go(Next::StmtDone),
            rest,
        ),
        Frame::Body => {
            Plan::Do(
                Acts::Three(Action::DeclareBody, Action::AddName, Action::EndSpecs),
                Then::Go(Next::Top),
                rest,
            )
        }
        _ => Plan::Refuse(rest),
    }
}

#[tactic(auto, unfolding(c_parser_moves::proofs::MachineSource::for_first))]
pub fn first_part<'a>(
    what: Punctuator,
    typed: bool,
    from: u32,
    whole: &'a [Token],
    rest: &'a [Token],
) -> Plan<'a>
    ensures { Plans result (for_first what typed from whole.now rest.now) }
{
    match what {
        Punctuator::Semicolon => {
            Plan::Do(
                Acts::One(Action::NoFirst),
                Then::Go(Next::ForTest(from)),
                rest,
            )
        }
        _ => {
            if typed {
                Plan::Do(
                    Acts::None,
                    Then::Go(Next::Names(DeclaredIn::For(from))),
                    whole,
                )
            } else {
                Plan::Do(Acts::None, Then::Read(Frame::ForFirst(from), 1), whole)
            }
        }
    }
}

#[tactic(auto, unfolding(c_parser_moves::proofs::MachineSource::for_test))]
pub fn test_part<'a>(what: Punctuator, from: u32, whole: &'a [Token], rest: &'a [Token]) -> Plan<'a>
    ensures { Plans result (for_test what from whole.now rest.now) }
{
    match what {
        Punctuator::Semicolon => {
            Plan::Do(
                Acts::One(Action::NoExpr),
                Then::Go(Next::ForStep(from)),
                rest,
            )
        }
        _ => Plan::Do(Acts::None, Then::Read(Frame::ForTest(from), 1), whole),
    }
}

#[tactic(auto, unfolding(c_parser_moves::proofs::MachineSource::for_step))]
pub fn step_part<'a>(what: Punctuator, from: u32, whole: &'a [Token], rest: &'a [Token]) -> Plan<'a>
    ensures { Plans result (for_step what from whole.now rest.now) }
{
    match what {
        Punctuator::Close => {
            Plan::Do(
                Acts::One(Action::NoExpr),
                Then::Open(Frame::ForBody(from), Next::Stmt),
                rest,
            )
        }
        _ => Plan::Do(Acts::None, Then::Read(Frame::ForStep(from), 1), whole),
    }
}

impl Parser {
    #[tactic(auto, unfolding(c_parser_moves::proofs::MachineSource::block_end))]
    fn end_block<'a>(&mut self, rest: &'a [Token]) -> Went<'a>
        ensures { Goes result self.old self.new (block_end rest.now) }
    {
        match self.pop() {
            None => Ok((Next::Fail, rest)),
            Some(Frame::Block(from)) => {
                self.emit(Action::Block(from))?;
                Ok((Next::StmtDone, rest))
            }
            Some(frame) => {
                self.open(frame)?;
                Ok((Next::Fail, rest))
            }
        }
    }

    #[tactic(auto, unfolding(c_parser_moves::proofs::MachineSource::entry))]
    pub fn next_entry<'a>(
        &mut self,
        what: Punctuator,
        typed: bool,
        whole: &'a [Token],
        rest: &'a [Token],
    ) -> Went<'a>
        ensures { Goes result self.old self.new (entry what typed whole.now rest.now) }
    {
        match what {
            Punctuator::CloseBrace => self.end_block(rest),
            _ => {
                if typed {
                    Ok((Next::Names(DeclaredIn::Local), whole))
                } else {
                    Ok((Next::Stmt, whole))
                }
            }
        }
    }
}

// The steps of the parser.

ghost use Rattle.std.specs.Prelude.{IfOk};
ghost use Rattle.c_parser_moves.proofs.MachineSteps.{step, give_next, given, take_next, taken, read_next};
ghost use Rattle.c_parser_actions.specs.Plans.{Plans, read_ahead};
ghost use Rattle.c_parser_actions.specs.Seen.{Goes};
ghost use Rattle.c_parser_actions.specs.Ahead.{Foretells};

use crate::annotation::{give_annot, give_atom, give_item, start_annot, start_atom};
use crate::declarator::{after_direct, give_declr, start_declr};
use crate::expression::{after_operand, give_operand, give_value, start_operand};
use crate::initial::{give_initial, start_initial};
use crate::parser::{Parser, Went, skip_one};
use crate::plan::{Acts, Plan, Then};
use crate::specifier::{start_annotated, start_names, start_target, start_type};
use crate::statement::{first_part, give_stmt, start_stmt, step_part, test_part};
use c_lexer::Token;
use c_parser_moves::{
    Frame, Next, Target, after_first, begin_kind, from_first, mark_first, type_first,
};
use std::alloc::AllocError;

/// Gives what has been read to the construct that wants it.
#[tactic(auto, unfolding(c_parser_moves::proofs::MachineSteps::give_next))]
fn give<'a>(next: Next, frame: Frame, rest: &'a [Token]) -> Plan<'a>
    ensures { Plans result (give_next next frame rest.now) }
{
    match next {
        Next::Done(level) => give_operand(frame, level, rest),
        Next::Value => give_value(frame, rest),
        Next::DeclrDone => give_declr(frame, rest),
        Next::AnnotDone => give_annot(frame, rest),
        Next::AtomDone => give_atom(frame, rest),
        Next::ItemDone => give_item(frame, rest),
        Next::ValueDone => give_initial(frame, rest),
        Next::StmtDone => give_stmt(frame, rest),
        _ => Plan::Refuse(rest),
    }
}

/// Reads a token that must be there.
#[tactic(auto, unfolding(c_parser_moves::proofs::MachineSteps::take_next))]
fn take<'a>(
    ahead: &[bool],
    next: Next,
    first: &'a Token,
    whole: &'a [Token],
    rest: &'a [Token],
) -> Result<Plan<'a>, AllocError>
    requires { Foretells ahead.now rest.now }
    ensures { IfOk result (λ p. Plans p (take_next next first.now whole.now rest.now)) }
{
    match next {
        Next::Operand => start_operand(first, rest),
        Next::Declr(naming, from) => start_declr(ahead, naming, from, first, whole, rest),
        Next::Annot => start_annot(first, rest),
        Next::Atom => start_atom(first, rest),
        Next::Stmt => Ok(start_stmt(begin_kind(&first.kind), first.from, whole, rest)),
        _ => Ok(Plan::Refuse(rest)),
    }
}

/// Goes on by what the rest begins with, where no construct is taken off for it.
#[tactic(auto, unfolding(c_parser_moves::proofs::MachineSteps::read_next, crate::specs::Plans::read_ahead))]
fn plan_ahead<'a>(next: Next, rest: &'a [Token]) -> Result<Plan<'a>, AllocError>
    ensures { IfOk result (λ p. Plans p (read_ahead next rest.now)) }
{
    let what = mark_first(rest);
    let from = from_first(rest);
    let others = skip_one(rest);
    match next {
        Next::After(from) => after_operand(after_first(rest), from, rest, others),
        Next::TypeName => start_type(rest),
        Next::Direct => Ok(after_direct(what, from, rest, others)),
        Next::Param => Ok(start_annotated(what, Target::Param(from), rest, others)),
        Next::Specs(target) => start_target(target, rest),
        Next::Names(place) => start_names(place, rest),
        Next::Item => Ok(Plan::Do(
            Acts::None,
            Then::Open(Frame::FirstFactor(from), Next::Atom),
            rest,
        )),
        Next::Initial => Ok(start_initial(what, from, rest, others)),
        Next::ForFirst(from) => Ok(first_part(what, type_first(rest), from, rest, others)),
        Next::ForTest(from) => Ok(test_part(what, from, rest, others)),
        Next::ForStep(from) => Ok(step_part(what, from, rest, others)),
        Next::End => Ok(Plan::Do(Acts::None, Then::Go(Next::End), rest)),
        _ => Ok(Plan::Refuse(rest)),
    }
}

impl Parser {
    /// Goes on by what the rest begins with, if anything.
    #[tactic(auto, unfolding(c_parser_moves::proofs::MachineSteps::read_next, crate::specs::Plans::read_ahead))]
    fn read<'a>(&mut self, next: Next, rest: &'a [Token]) -> Went<'a>
        ensures { Goes result self.old self.new (read_next next rest.now) }
    {
        let what = mark_first(rest);
        let others = skip_one(rest);
        match next {
            Next::Entry => self.next_entry(what, type_first(rest), rest, others),
            Next::MemberEnd => self.next_member(what, rest, others),
            Next::Top => self.next_top(rest),
            _ => self.go(plan_ahead(next, rest)),
        }
    }

    /// Gives what has been read to the construct that was opened last.
    fn give_newest<'a>(&mut self, next: Next, rest: &'a [Token]) -> Went<'a>
        ensures { Goes result self.old self.new (given next rest.now) }
    {
        match self.pop() {
            None => Ok((Next::Fail, rest)),
            Some(frame) => self.go(Ok(give(next, frame, rest))),
        }
    }

    /// Reads a token that must be there, if there is any.
    fn take_first<'a>(&mut self, ahead: &[bool], next: Next, rest: &'a [Token]) -> Went<'a>
        requires { Foretells ahead.now rest.now }
        ensures { Goes result self.old self.new (taken next rest.now) }
    {
        match rest {
            [] => Ok((Next::Fail, rest)),
            [first, others @ ..] => self.go(take(ahead, next, first, rest, others)),
        }
    }

    /// One step, by what the table has of the tokens ahead.
    #[inline(always)]
    #[tactic(auto, unfolding(c_parser_moves::proofs::MachineSteps::step))]
    pub fn step<'a>(&mut self, ahead: &[bool], next: Next, rest: &'a [Token]) -> Went<'a>
        requires { Foretells ahead.now rest.now }
        ensures { Goes result self.old self.new (step next rest.now) }
    {
        match next {
            Next::Operand => self.read_operand(rest),
            Next::After(from) => self.read_after(from, rest),
            Next::Done(level) => self.give_level(level, rest),
            Next::Value => self.give_whole(rest),
            Next::DeclrDone
            | Next::AnnotDone
            | Next::AtomDone
            | Next::ItemDone
            | Next::ValueDone
            | Next::StmtDone => self.give_newest(next, rest),
            Next::Declr(_, _) | Next::Annot | Next::Atom | Next::Stmt => {
                self.take_first(ahead, next, rest)
            }
            _ => self.read(next, rest),
        }
    }
}

// The moves over the values of declarations.

ghost use Rattle.c_parser_moves.proofs.MachineSource.{initial, braces_on, braces_end, init_end, value_end};
ghost use Rattle.c_parser_actions.specs.Plans.{Plans};

use crate::declarator::end_names;
use crate::parser::skip_one;
use crate::plan::{Acts, Plan, Then};
use c_lexer::Token;
use c_parser_moves::{Action, DeclaredIn, Frame, Naming, Next, Punctuator, mark_first};

#[tactic(auto, unfolding(c_parser_moves::proofs::MachineSource::initial))]
pub fn start_initial<'a>(
    what: Punctuator,
    from: u32,
    whole: &'a [Token],
    rest: &'a [Token],
) -> Plan<'a>
    ensures { Plans result (initial what from whole.now rest.now) }
{
    match what {
        Punctuator::OpenBrace => {
            Plan::Do(
                Acts::One(Action::NoValues),
                Then::Open(Frame::Braces(from), Next::Initial),
                rest,
            )
        }
        _ => Plan::Do(Acts::None, Then::Read(Frame::Plain, 2), whole),
    }
}

#[tactic(auto, unfolding(c_parser_moves::proofs::MachineSource::braces_on))]
fn more_braces<'a>(what: Punctuator, from: u32, whole: &'a [Token], rest: &'a [Token]) -> Plan<'a>
    ensures { Plans result (braces_on what from whole.now rest.now) }
{
    match what {
        Punctuator::CloseBrace => {
            Plan::Do(
                Acts::Two(Action::AddValue, Action::Braces(from)),
                Then::Go(Next::ValueDone),
                rest,
            )
        }
        _ => {
            Plan::Do(
                Acts::One(Action::AddValue),
                Then::Open(Frame::Braces(from), Next::Initial),
                whole,
            )
        }
    }
}

#[tactic(auto, unfolding(c_parser_moves::proofs::MachineSource::braces_end))]
fn after_inner<'a>(what: Punctuator, from: u32, rest: &'a [Token]) -> Plan<'a>
    ensures { Plans result (braces_end what from rest.now) }
{
    match what {
        Punctuator::CloseBrace => {
            Plan::Do(
                Acts::Two(Action::AddValue, Action::Braces(from)),
                Then::Go(Next::ValueDone),
                rest,
            )
        }
        Punctuator::Comma => more_braces(mark_first(rest), from, rest, skip_one(rest)),
        _ => Plan::Refuse(rest),
    }
}

#[tactic(auto, unfolding(c_parser_moves::proofs::MachineSource::init_end))]
fn after_init<'a>(what: Punctuator, place: DeclaredIn, rest: &'a [Token]) -> Plan<'a>
    ensures { Plans result (init_end what place rest.now) }
{
    match what {
        Punctuator::Comma => {
            Plan::Do(
                Acts::Two(Action::DeclareValue, Action::AddName),
                Then::Open(Frame::Names(place, false), Next::Declr(Naming::Always, 0)),
                rest,
            )
        }
        Punctuator::Semicolon => end_names(place, Action::DeclareValue, rest),
        _ => Plan::Refuse(rest),
    }
}

#[tactic(auto, unfolding(c_parser_moves::proofs::MachineSource::value_end))]
pub fn give_initial<'a>(frame: Frame, rest: &'a [Token]) -> Plan<'a>
    ensures { Plans result (value_end frame rest.now) }
{
    match frame {
        Frame::Braces(from) => after_inner(mark_first(rest), from, skip_one(rest)),
        Frame::Init(place) => after_init(mark_first(rest), place, skip_one(rest)),
        _ => Plan::Refuse(rest),
    }
}

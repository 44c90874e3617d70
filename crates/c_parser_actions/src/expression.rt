// The moves over expressions.

ghost use Rattle.std.specs.Prelude.{IfOk};
ghost use Rattle.c_parser_moves.proofs.MachineExpr.{bracket, size, start_sign, start, call, field, after, climb, give, do_end, at_comma, at_close, at_bracket, at_colon, at_semicolon, closes, value};
ghost use Rattle.c_parser_moves.specs.Marks.{mark_at, IsLow};
ghost use Rattle.c_parser_actions.specs.Plans.{Plans};
ghost use Rattle.c_syntax.specs.Levels.{begins_type, opens_type};

use crate::parser::skip_one;
use crate::plan::{Acts, Plan, Then};
use c_lexer::{Kind, Sign, Token, Word};
use c_parser_moves::{
    Action, After, Frame, Next, Punctuator, after_first, mark_first, open_type_first, prefix_sign,
    type_first,
};
use std::alloc::AllocError;

#[tactic(auto, unfolding(c_parser_moves::proofs::MachineExpr::bracket))]
fn open_bracket<'a>(from: u32, rest: &'a [Token]) -> Plan<'a>
    ensures { Plans result (bracket (begins_type rest.now) from rest.now) }
{
    if type_first(rest) {
        Plan::Do(
            Acts::None,
            Then::Open(Frame::CastType(from), Next::TypeName),
            rest,
        )
    } else {
        Plan::Do(Acts::None, Then::Read(Frame::Group(from), 1), rest)
    }
}

#[tactic(auto, unfolding(c_parser_moves::proofs::MachineExpr::size))]
fn start_sizeof<'a>(from: u32, rest: &'a [Token]) -> Plan<'a>
    ensures { Plans result (size (opens_type rest.now) from rest.now) }
{
    if open_type_first(rest) {
        Plan::Do(
            Acts::None,
            Then::Open(Frame::SizeofType(from), Next::TypeName),
            skip_one(rest),
        )
    } else {
        Plan::Do(
            Acts::None,
            Then::Open(Frame::Sizeof(from), Next::Operand),
            rest,
        )
    }
}

#[tactic(auto, unfolding(c_parser_moves::proofs::MachineExpr::start_sign))]
fn start_with_sign<'a>(sign: Sign, from: u32, rest: &'a [Token]) -> Plan<'a>
    ensures { Plans result (start_sign sign from rest.now) }
{
    match sign {
        Sign::OpenParenthesis => open_bracket(from, rest),
        _ => {
            if prefix_sign(sign) {
                Plan::Do(
                    Acts::None,
                    Then::Open(Frame::Prefix(from, sign), Next::Operand),
                    rest,
                )
            } else {
                Plan::Refuse(rest)
            }
        }
    }
}

#[tactic(auto, unfolding(c_parser_moves::proofs::MachineExpr::start))]
pub fn start_operand<'a>(first: &'a Token, rest: &'a [Token]) -> Result<Plan<'a>, AllocError>
    ensures { IfOk result (λ p. Plans p (start first.now.kind first.now.from rest.now)) }
{
    let from = first.from;
    match &first.kind {
        Kind::Name(name) => {
            let name = name.share()?;
            Ok(Plan::Do(
                Acts::One(Action::Name(from, name)),
                Then::Go(Next::After(from)),
                rest,
            ))
        }
        Kind::Number {
            value,
            suffix,
            decimal,
        } => {
            Ok(Plan::Do(
                Acts::One(Action::Number {
                    from,
                    value: *value,
                    suffix: *suffix,
                    decimal: *decimal,
                }),
                Then::Go(Next::After(from)),
                rest,
            ))
        }
        Kind::Char(value) => {
            Ok(Plan::Do(
                Acts::One(Action::Char(from, *value)),
                Then::Go(Next::After(from)),
                rest,
            ))
        }
        Kind::Text(text) => {
            let text = text.share()?;
            Ok(Plan::Do(
                Acts::One(Action::Text(from, text)),
                Then::Go(Next::After(from)),
                rest,
            ))
        }
        Kind::Word(Word::Sizeof) => Ok(start_sizeof(from, rest)),
        Kind::Word(_) => Ok(Plan::Refuse(rest)),
        Kind::Sign(sign) => Ok(start_with_sign(*sign, from, rest)),
    }
}

#[tactic(auto, unfolding(c_parser_moves::proofs::MachineExpr::call))]
fn start_call<'a>(from: u32, rest: &'a [Token]) -> Plan<'a>
    ensures { Plans result (call (mark_at rest.now) from rest.now) }
{
    match mark_first(rest) {
        Punctuator::Close => Plan::Do(
            Acts::Two(Action::NoExprs, Action::Call(from)),
            Then::Go(Next::After(from)),
            skip_one(rest),
        ),
        _ => Plan::Do(
            Acts::One(Action::NoExprs),
            Then::Read(Frame::Args(from), 2),
            rest,
        ),
    }
}

#[tactic(auto, unfolding(c_parser_moves::proofs::MachineExpr::field_name, c_parser_moves::proofs::MachineExpr::field))]
fn read_field<'a>(dot: bool, from: u32, rest: &'a [Token]) -> Result<Plan<'a>, AllocError>
    ensures { IfOk result (λ p. Plans p (field dot from rest.now)) }
{
    match rest {
        [] => Ok(Plan::Refuse(rest)),
        [first, others @ ..] => match &first.kind {
            Kind::Name(name) => {
                let name = name.share()?;
                if dot {
                    Ok(Plan::Do(
                        Acts::One(Action::Member(from, name)),
                        Then::Go(Next::After(from)),
                        others,
                    ))
                } else {
                    Ok(Plan::Do(
                        Acts::One(Action::Arrow(from, name)),
                        Then::Go(Next::After(from)),
                        others,
                    ))
                }
            }
            _ => Ok(Plan::Refuse(others)),
        },
    }
}

#[tactic(auto, unfolding(c_parser_moves::proofs::MachineExpr::after))]
pub fn after_operand<'a>(
    what: After,
    from: u32,
    whole: &'a [Token],
    rest: &'a [Token],
) -> Result<Plan<'a>, AllocError>
    ensures { IfOk result (λ p. Plans p (after what from whole.now rest.now)) }
{
    match what {
        After::Index => Ok(Plan::Do(Acts::None, Then::Read(Frame::Index(from), 1), rest)),
        After::Call => Ok(start_call(from, rest)),
        After::Dot => read_field(true, from, rest),
        After::Arrow => read_field(false, from, rest),
        After::Postfix(sign) => {
            Ok(Plan::Do(
                Acts::One(Action::Postfix(from, sign)),
                Then::Go(Next::After(from)),
                rest,
            ))
        }
        _ => Ok(Plan::Do(Acts::None, Then::Go(Next::Done(14)), whole)),
    }
}

#[tactic(auto, unfolding(c_parser_moves::proofs::MachineExpr::climb, c_parser_moves::proofs::MachineExpr::close))]
fn climb_on<'a>(
    what: After,
    wanted: u8,
    from: u32,
    level: u8,
    whole: &'a [Token],
    rest: &'a [Token],
) -> Plan<'a>
    requires within { IsLow what }
    ensures { Plans result (climb what wanted from level whole.now rest.now) }
{
    let climbs = Frame::Climb(wanted, from);
    match what {
        After::Binary(at, sign) if wanted <= at && at <= level => {
            Plan::ReadIn(climbs, Frame::Binary(at, from, sign), at + 1, rest)
        }
        After::Assign(sign) if wanted <= 2 && 14 <= level => {
            Plan::ReadIn(climbs, Frame::Assign(from, sign), 2, rest)
        }
        After::Question if wanted <= 3 && 4 <= level => {
            Plan::ReadIn(climbs, Frame::Middle(from), 1, rest)
        }
        _ => {
            if wanted <= level {
                Plan::Do(Acts::None, Then::Go(Next::Value), whole)
            } else {
                Plan::Refuse(whole)
            }
        }
    }
}

#[tactic(auto, unfolding(c_parser_moves::proofs::MachineExpr::give))]
pub fn give_operand<'a>(frame: Frame, level: u8, rest: &'a [Token]) -> Plan<'a>
    ensures { Plans result (give frame level rest.now) }
{
    match frame {
        Frame::Climb(wanted, from) => {
            climb_on(after_first(rest), wanted, from, level, rest, skip_one(rest))
        }
        _ if level < 14 => Plan::Refuse(rest),
        Frame::Prefix(from, sign) => {
            Plan::Do(
                Acts::One(Action::Prefix(from, sign)),
                Then::Go(Next::Done(14)),
                rest,
            )
        }
        Frame::Sizeof(from) => Plan::Do(
            Acts::One(Action::SizeofExpr(from)),
            Then::Go(Next::Done(14)),
            rest,
        ),
        Frame::Cast(from) => Plan::Do(
            Acts::One(Action::Cast(from)),
            Then::Go(Next::Done(14)),
            rest,
        ),
        _ => Plan::Refuse(rest),
    }
}

#[tactic(auto, unfolding(c_parser_moves::proofs::MachineExpr::do_end))]
fn end_do<'a>(what: Punctuator, from: u32, rest: &'a [Token]) -> Plan<'a>
    ensures { Plans result (do_end what from rest.now) }
{
    match what {
        Punctuator::Semicolon => {
            Plan::Do(
                Acts::One(Action::Do(from)),
                Then::Go(Next::StmtDone),
                skip_one(rest),
            )
        }
        _ => Plan::Refuse(rest),
    }
}

#[tactic(auto, unfolding(c_parser_moves::proofs::MachineExpr::at_comma))]
fn close_comma<'a>(frame: Frame, rest: &'a [Token]) -> Plan<'a>
    ensures { Plans result (at_comma frame rest.now) }
{
    match frame {
        Frame::Args(_) => Plan::Do(Acts::One(Action::AddExpr), Then::Read(frame, 2), rest),
        _ => Plan::Refuse(rest),
    }
}

#[tactic(auto, unfolding(c_parser_moves::proofs::MachineExpr::at_close))]
fn close_round<'a>(frame: Frame, rest: &'a [Token]) -> Plan<'a>
    ensures { Plans result (at_close frame rest.now) }
{
    match frame {
        Frame::Args(from) => {
            Plan::Do(
                Acts::Two(Action::AddExpr, Action::Call(from)),
                Then::Go(Next::After(from)),
                rest,
            )
        }
        Frame::Group(from) => Plan::Do(Acts::None, Then::Go(Next::After(from)), rest),
        Frame::IfCond(from) => Plan::Do(
            Acts::None,
            Then::Open(Frame::IfThen(from), Next::Stmt),
            rest,
        ),
        Frame::WhileCond(from) => Plan::Do(
            Acts::None,
            Then::Open(Frame::WhileBody(from), Next::Stmt),
            rest,
        ),
        Frame::DoCond(from) => end_do(mark_first(rest), from, rest),
        Frame::ForStep(from) => {
            Plan::Do(
                Acts::One(Action::OneExpr),
                Then::Open(Frame::ForBody(from), Next::Stmt),
                rest,
            )
        }
        _ => Plan::Refuse(rest),
    }
}

#[tactic(auto, unfolding(c_parser_moves::proofs::MachineExpr::at_bracket))]
fn close_square<'a>(frame: Frame, rest: &'a [Token]) -> Plan<'a>
    ensures { Plans result (at_bracket frame rest.now) }
{
    match frame {
        Frame::Index(from) => {
            Plan::Do(
                Acts::One(Action::Index(from)),
                Then::Go(Next::After(from)),
                rest,
            )
        }
        Frame::Length(from) => Plan::Do(
            Acts::One(Action::Array(from)),
            Then::Go(Next::Direct),
            rest,
        ),
        _ => Plan::Refuse(rest),
    }
}

#[tactic(auto, unfolding(c_parser_moves::proofs::MachineExpr::at_colon))]
fn close_colon<'a>(frame: Frame, rest: &'a [Token]) -> Plan<'a>
    ensures { Plans result (at_colon frame rest.now) }
{
    match frame {
        Frame::Middle(from) => Plan::Do(Acts::None, Then::Read(Frame::Last(from), 3), rest),
        _ => Plan::Refuse(rest),
    }
}

#[tactic(auto, unfolding(c_parser_moves::proofs::MachineExpr::at_semicolon))]
fn close_semicolon<'a>(frame: Frame, rest: &'a [Token]) -> Plan<'a>
    ensures { Plans result (at_semicolon frame rest.now) }
{
    match frame {
        Frame::Expression(from) => {
            Plan::Do(
                Acts::Two(Action::OneExpr, Action::Expression(from)),
                Then::Go(Next::StmtDone),
                rest,
            )
        }
        Frame::ForFirst(from) => {
            Plan::Do(
                Acts::One(Action::ExprFirst),
                Then::Go(Next::ForTest(from)),
                rest,
            )
        }
        Frame::ForTest(from) => {
            Plan::Do(
                Acts::One(Action::OneExpr),
                Then::Go(Next::ForStep(from)),
                rest,
            )
        }
        Frame::Return(from) => {
            Plan::Do(
                Acts::Two(Action::OneExpr, Action::Return(from)),
                Then::Go(Next::StmtDone),
                rest,
            )
        }
        _ => Plan::Refuse(rest),
    }
}

#[tactic(auto, unfolding(c_parser_moves::proofs::MachineExpr::closes))]
fn close_with<'a>(what: Punctuator, frame: Frame, rest: &'a [Token]) -> Plan<'a>
    ensures { Plans result (closes what frame rest.now) }
{
    match what {
        Punctuator::Comma => close_comma(frame, rest),
        Punctuator::Close => close_round(frame, rest),
        Punctuator::CloseBracket => close_square(frame, rest),
        Punctuator::Colon => close_colon(frame, rest),
        Punctuator::Semicolon => close_semicolon(frame, rest),
        _ => Plan::Refuse(rest),
    }
}

#[tactic(auto, unfolding(c_parser_moves::proofs::MachineExpr::value))]
pub fn give_value<'a>(frame: Frame, rest: &'a [Token]) -> Plan<'a>
    ensures { Plans result (value frame rest.now) }
{
    match frame {
        Frame::Binary(level, from, sign) => {
            Plan::Do(
                Acts::One(Action::Binary(from, sign)),
                Then::Go(Next::Done(level)),
                rest,
            )
        }
        Frame::Assign(from, sign) => {
            Plan::Do(
                Acts::One(Action::Assign(from, sign)),
                Then::Go(Next::Done(2)),
                rest,
            )
        }
        Frame::Last(from) => Plan::Do(Acts::One(Action::Cond(from)), Then::Go(Next::Done(3)), rest),
        Frame::Plain => Plan::Do(Acts::One(Action::Plain), Then::Go(Next::ValueDone), rest),
        _ => close_with(mark_first(rest), frame, skip_one(rest)),
    }
}

// The moves over declarators, and what follows them.

ghost use Rattle.std.specs.Prelude.{◌≡◌, ◌∷◌, [], IfOk, Some, false};
ghost use Rattle.c_parser_moves.proofs.Machine.{move};
ghost use Rattle.c_parser_moves.proofs.MachineDeclr.{groups, unnamed, in_group, give_name, declr, params, direct, end_acts, end_next, with_value, with_body, named, param_end, type_end, type_closes, declared, named_group};
ghost use Rattle.c_parser_actions.specs.Plans.{Plans};
ghost use Rattle.c_parser_actions.specs.Ahead.{Foretells};
ghost use Rattle.c_syntax.specs.Levels.{lone_void};

use crate::ahead::annots_follow;
use crate::parser::skip_one;
use crate::plan::{Acts, Plan, Then};
use c_lexer::{Kind, Sign, Text, Token};
use c_parser_moves::{
    Action, DeclaredIn, Frame, Naming, Next, Punctuator, after_consts, mark_first, void_first,
};
use std::alloc::AllocError;

fn names_group(naming: Naming) -> bool
    ensures { result ≡ named_group naming }
{
    match naming {
        Naming::Never => false,
        _ => true,
    }
}

#[tactic(auto, unfolding(c_parser_moves::proofs::MachineDeclr::groups))]
fn opens_group(ahead: &[bool], naming: Naming, rest: &[Token]) -> bool
    requires { Foretells ahead.now rest.now }
    ensures { result ≡ groups naming rest.now }
{
    match rest {
        [] => false,
        [first, others @ ..] => match naming {
            Naming::Always => true,
            _ => match &first.kind {
                Kind::Name(_) => names_group(naming),
                Kind::Sign(Sign::Star) => true,
                Kind::Sign(Sign::OpenParenthesis) => true,
                Kind::Sign(Sign::OpenBracket) => !annots_follow(ahead, others),
                _ => false,
            },
        },
    }
}

#[tactic(auto, unfolding(c_parser_moves::proofs::MachineDeclr::unnamed))]
fn without_name<'a>(naming: Naming, from: u32, rest: &'a [Token]) -> Plan<'a>
    ensures { Plans result (unnamed naming from rest.now) }
{
    match naming {
        Naming::Always => Plan::Refuse(rest),
        _ => Plan::Do(
            Acts::One(Action::Nameless(from)),
            Then::Go(Next::Direct),
            rest,
        ),
    }
}

#[tactic(auto, unfolding(c_parser_moves::proofs::MachineDeclr::give_name))]
fn with_name<'a>(
    naming: Naming,
    from: u32,
    at: u32,
    name: &Text,
    whole: &'a [Token],
    rest: &'a [Token],
) -> Result<Plan<'a>, AllocError>
    ensures { IfOk result (λ p. Plans p
        (give_name naming from at name.now whole.now rest.now)) }
{
    match naming {
        Naming::Never => Ok(without_name(naming, from, whole)),
        _ => {
            let name = name.share()?;
            Ok(Plan::Do(
                Acts::One(Action::Named(at, name)),
                Then::Go(Next::Direct),
                rest,
            ))
        }
    }
}

#[tactic(auto, unfolding(c_parser_moves::proofs::MachineDeclr::in_group))]
fn in_brackets<'a>(
    ahead: &[bool],
    naming: Naming,
    from: u32,
    whole: &'a [Token],
    rest: &'a [Token],
) -> Plan<'a>
    requires { Foretells ahead.now rest.now }
    ensures { Plans result (in_group (groups naming rest.now) naming from whole.now rest.now) }
{
    if opens_group(ahead, naming, rest) {
        Plan::Do(
            Acts::None,
            Then::Open(Frame::Grouped, Next::Declr(naming, from)),
            rest,
        )
    } else {
        without_name(naming, from, whole)
    }
}

#[tactic(auto, unfolding(c_parser_moves::proofs::MachineDeclr::declr))]
pub fn start_declr<'a>(
    ahead: &[bool],
    naming: Naming,
    from: u32,
    first: &'a Token,
    whole: &'a [Token],
    rest: &'a [Token],
) -> Result<Plan<'a>, AllocError>
    requires { Foretells ahead.now rest.now }
    ensures { IfOk result
        (λ p. Plans p (declr first.now.kind naming from first.now.from whole.now rest.now)) }
{
    match &first.kind {
        Kind::Name(name) => with_name(naming, from, first.from, name, whole, rest),
        Kind::Sign(Sign::Star) => {
            Ok(Plan::Do(
                Acts::None,
                Then::Open(Frame::Pointer(first.from), Next::Declr(naming, from)),
                after_consts(rest),
            ))
        }
        Kind::Sign(Sign::OpenParenthesis) => Ok(in_brackets(ahead, naming, from, whole, rest)),
        _ => Ok(without_name(naming, from, whole)),
    }
}

#[tactic(auto, unfolding(c_parser_moves::proofs::MachineDeclr::params))]
fn start_params<'a>(from: u32, rest: &'a [Token]) -> Plan<'a>
    ensures { Plans result (params (lone_void rest.now) from rest.now) }
{
    if void_first(rest) {
        Plan::Do(
            Acts::Two(Action::NoDecls, Action::Params(from)),
            Then::Go(Next::Direct),
            skip_one(skip_one(rest)),
        )
    } else {
        Plan::Do(
            Acts::One(Action::NoDecls),
            Then::Open(Frame::Params(from), Next::Param),
            rest,
        )
    }
}

#[tactic(auto, unfolding(c_parser_moves::proofs::MachineDeclr::direct))]
pub fn after_direct<'a>(
    what: Punctuator,
    from: u32,
    whole: &'a [Token],
    rest: &'a [Token],
) -> Plan<'a>
    ensures { Plans result (direct what from whole.now rest.now) }
{
    match what {
        Punctuator::OpenBracket => Plan::Do(Acts::None, Then::Read(Frame::Length(from), 3), rest),
        Punctuator::Open => start_params(from, rest),
        _ => Plan::Do(Acts::None, Then::Go(Next::DeclrDone), whole),
    }
}

/// The last of the names is declared by this action, and they end.
pub fn end_names<'a>(place: DeclaredIn, last: Action, rest: &'a [Token]) -> Plan<'a>
    ensures { Plans result (move (end_next place) (end_acts place (last ∷ [])) rest.now) }
{
    match place {
        DeclaredIn::Top => Plan::Do(
            Acts::Three(last, Action::AddName, Action::EndSpecs),
            Then::Go(Next::Top),
            rest,
        ),
        DeclaredIn::Local => {
            Plan::Do(
                Acts::Four(last, Action::AddName, Action::EndSpecs, Action::AddLocal),
                Then::Go(Next::Entry),
                rest,
            )
        }
        DeclaredIn::For(from) => {
            Plan::Do(
                Acts::Four(last, Action::AddName, Action::EndSpecs, Action::LocalFirst),
                Then::Go(Next::ForTest(from)),
                rest,
            )
        }
        DeclaredIn::Member => Plan::Do(
            Acts::Three(last, Action::AddName, Action::EndSpecs),
            Then::Go(Next::MemberEnd),
            rest,
        ),
    }
}

#[tactic(auto, unfolding(c_parser_moves::proofs::MachineDeclr::with_value))]
fn start_value<'a>(place: DeclaredIn, rest: &'a [Token]) -> Plan<'a>
    ensures { Plans result (with_value place rest.now) }
{
    match place {
        DeclaredIn::Member => Plan::Refuse(rest),
        _ => Plan::Do(
            Acts::None,
            Then::Open(Frame::Init(place), Next::Initial),
            rest,
        ),
    }
}

#[tactic(auto, unfolding(c_parser_moves::proofs::MachineDeclr::with_body))]
fn start_body<'a>(place: DeclaredIn, first: bool, rest: &'a [Token]) -> Plan<'a>
    ensures { Plans result (with_body place first rest.now) }
{
    match (place, first) {
        (DeclaredIn::Top, true) => Plan::Do(Acts::None, Then::Open(Frame::Body, Next::Stmt), rest),
        _ => Plan::Refuse(rest),
    }
}

#[tactic(auto, unfolding(c_parser_moves::proofs::MachineDeclr::named))]
fn after_name<'a>(
    what: Punctuator,
    place: DeclaredIn,
    first: bool,
    whole: &'a [Token],
    rest: &'a [Token],
) -> Plan<'a>
    ensures { Plans result (named what place first whole.now rest.now) }
{
    match what {
        Punctuator::Assign => start_value(place, rest),
        Punctuator::Comma => {
            Plan::Do(
                Acts::Two(Action::Declare, Action::AddName),
                Then::Open(Frame::Names(place, false), Next::Declr(Naming::Always, 0)),
                rest,
            )
        }
        Punctuator::Semicolon => end_names(place, Action::Declare, rest),
        Punctuator::OpenBrace => start_body(place, first, whole),
        _ => Plan::Refuse(whole),
    }
}

#[tactic(auto, unfolding(c_parser_moves::proofs::MachineDeclr::param_end))]
fn after_param<'a>(what: Punctuator, from: u32, rest: &'a [Token]) -> Plan<'a>
    ensures { Plans result (param_end what from rest.now) }
{
    match what {
        Punctuator::Comma => {
            Plan::Do(
                Acts::Three(Action::Declare, Action::AddName, Action::EndSpecs),
                Then::Open(Frame::Params(from), Next::Param),
                rest,
            )
        }
        Punctuator::Close => {
            Plan::Do(
                Acts::Four(
                    Action::Declare,
                    Action::AddName,
                    Action::EndSpecs,
                    Action::Params(from),
                ),
                Then::Go(Next::Direct),
                rest,
            )
        }
        _ => Plan::Refuse(rest),
    }
}

#[tactic(auto, unfolding(c_parser_moves::proofs::MachineDeclr::type_end))]
fn end_type<'a>(frame: Frame, rest: &'a [Token]) -> Plan<'a>
    ensures { Plans result (type_end frame rest.now) }
{
    match frame {
        Frame::Grouped => Plan::Do(Acts::None, Then::Go(Next::Direct), rest),
        Frame::CastType(from) => {
            Plan::Do(
                Acts::Two(Action::Declare, Action::DropSpecs),
                Then::Open(Frame::Cast(from), Next::Operand),
                rest,
            )
        }
        Frame::SizeofType(from) => {
            Plan::Do(
                Acts::Three(Action::Declare, Action::DropSpecs, Action::SizeofType(from)),
                Then::Go(Next::Done(14)),
                rest,
            )
        }
        Frame::SizeofAtom => {
            Plan::Do(
                Acts::Three(Action::Declare, Action::DropSpecs, Action::SizeofAtom),
                Then::Go(Next::AtomDone),
                rest,
            )
        }
        _ => Plan::Refuse(rest),
    }
}

#[tactic(auto, unfolding(c_parser_moves::proofs::MachineDeclr::type_closes))]
fn close_type<'a>(what: Punctuator, frame: Frame, rest: &'a [Token]) -> Plan<'a>
    ensures { Plans result (type_closes what frame rest.now) }
{
    match what {
        Punctuator::Close => end_type(frame, rest),
        _ => Plan::Refuse(rest),
    }
}

#[tactic(auto, unfolding(c_parser_moves::proofs::MachineDeclr::declared))]
pub fn give_declr<'a>(frame: Frame, rest: &'a [Token]) -> Plan<'a>
    ensures { Plans result (declared frame rest.now) }
{
    let mark = mark_first(rest);
    let others = skip_one(rest);
    match frame {
        Frame::Pointer(from) => {
            Plan::Do(
                Acts::One(Action::Pointer(from)),
                Then::Go(Next::DeclrDone),
                rest,
            )
        }
        Frame::Names(place, first) => after_name(mark, place, first, rest, others),
        Frame::Params(from) => after_param(mark, from, others),
        _ => close_type(mark, frame, others),
    }
}

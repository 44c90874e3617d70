// The moves over specifiers, and the annotations before them.

ghost use Rattle.std.specs.Prelude.{◌≡◌, IfOk, Some, false};
ghost use Rattle.c_parser_moves.proofs.MachineDeclr.{annotated, is_top, placed, targeted, typed};
ghost use Rattle.c_parser_actions.specs.Plans.{Plans};
ghost use Rattle.c_parser_moves.specs.Words.{take_specs};
ghost use Rattle.c_syntax.specs.Levels.{from_of};

use crate::plan::{Acts, Plan, Then};
use c_lexer::Token;
use c_parser_moves::{
    Action, DeclaredIn, Frame, Naming, Next, Punctuator, Target, from_first, specs,
};
use c_syntax::Base;
use std::alloc::AllocError;

pub fn at_top(target: Target) -> bool
    ensures { result ≡ is_top target }
{
    match target {
        Target::Top => true,
        Target::Param(_) => false,
    }
}

#[tactic(auto, unfolding(c_parser_moves::proofs::MachineDeclr::typed))]
pub fn start_type<'a>(rest: &'a [Token]) -> Result<Plan<'a>, AllocError>
    ensures { IfOk result (λ p. Plans p
        (typed (take_specs false rest.now) (from_of rest.now))) }
{
    let from = from_first(rest);
    match specs(false, rest)? {
        None => Ok(Plan::Refuse(&rest[rest.len()..])),
        Some((base, others)) => {
            Ok(Plan::Do(
                Acts::Two(Action::NoAnnots, Action::Specs(base)),
                Then::Go(Next::Declr(Naming::Never, from)),
                others,
            ))
        }
    }
}

#[tactic(auto, unfolding(c_parser_moves::proofs::MachineDeclr::targeted))]
fn begin_target<'a>(base: Base, target: Target, rest: &'a [Token]) -> Plan<'a>
    ensures { Plans result (targeted (Some (base, rest.now)) target) }
{
    match target {
        Target::Top => {
            Plan::Do(
                Acts::One(Action::Specs(base)),
                Then::Open(
                    Frame::Names(DeclaredIn::Top, true),
                    Next::Declr(Naming::Always, 0),
                ),
                rest,
            )
        }
        Target::Param(from) => Plan::Do(
            Acts::One(Action::Specs(base)),
            Then::Go(Next::Declr(Naming::Either, from)),
            rest,
        ),
    }
}

#[tactic(auto, unfolding(c_parser_moves::proofs::MachineDeclr::targeted))]
pub fn start_target<'a>(target: Target, rest: &'a [Token]) -> Result<Plan<'a>, AllocError>
    ensures { IfOk result
        (λ p. Plans p (targeted (take_specs (is_top target) rest.now) target)) }
{
    match specs(at_top(target), rest)? {
        None => Ok(Plan::Refuse(&rest[rest.len()..])),
        Some((base, others)) => Ok(begin_target(base, target, others)),
    }
}

/// Names are to be read that share this type.
#[tactic(auto, unfolding(c_parser_moves::proofs::MachineDeclr::placed))]
fn begin_names<'a>(base: Base, place: DeclaredIn, rest: &'a [Token]) -> Plan<'a>
    ensures { Plans result (placed (Some (base, rest.now)) place) }
{
    match place {
        DeclaredIn::Member => {
            Plan::Do(
                Acts::Two(Action::NoAnnots, Action::Specs(base)),
                Then::Open(Frame::Names(place, true), Next::Declr(Naming::Always, 0)),
                rest,
            )
        }
        _ => {
            Plan::Do(
                Acts::Three(Action::NoDecls, Action::NoAnnots, Action::Specs(base)),
                Then::Open(Frame::Names(place, true), Next::Declr(Naming::Always, 0)),
                rest,
            )
        }
    }
}

#[tactic(auto, unfolding(c_parser_moves::proofs::MachineDeclr::placed))]
pub fn start_names<'a>(place: DeclaredIn, rest: &'a [Token]) -> Result<Plan<'a>, AllocError>
    ensures { IfOk result (λ p. Plans p (placed (take_specs false rest.now) place)) }
{
    match specs(false, rest)? {
        None => Ok(Plan::Refuse(&rest[rest.len()..])),
        Some((base, others)) => Ok(begin_names(base, place, others)),
    }
}

#[tactic(auto, unfolding(c_parser_moves::proofs::MachineDeclr::annotated))]
pub fn start_annotated<'a>(
    what: Punctuator,
    target: Target,
    whole: &'a [Token],
    rest: &'a [Token],
) -> Plan<'a>
    ensures { Plans result (annotated what target whole.now rest.now) }
{
    match what {
        Punctuator::OpenBracket => {
            Plan::Do(
                Acts::One(Action::NoAnnots),
                Then::Open(Frame::Annots(target), Next::Annot),
                rest,
            )
        }
        _ => Plan::Do(
            Acts::One(Action::NoAnnots),
            Then::Go(Next::Specs(target)),
            whole,
        ),
    }
}

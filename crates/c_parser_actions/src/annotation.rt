// The moves over annotations.

ghost use Rattle.std.specs.Prelude.{IfOk};
ghost use Rattle.c_parser_moves.proofs.MachineDeclr.{annot_items, annot, annots_end, annot_end, atom_size, atom, factor, atom_end, items_end, item_end};
ghost use Rattle.c_parser_actions.specs.Plans.{Plans};

use crate::parser::skip_one;
use crate::plan::{Acts, Plan, Then};
use c_lexer::{Kind, Text, Token, Word};
use c_parser_moves::{Action, Frame, Next, Punctuator, Target, mark_first};
use std::alloc::AllocError;

#[tactic(auto, unfolding(c_parser_moves::proofs::MachineDeclr::annot_items))]
fn start_items<'a>(
    what: Punctuator,
    from: u32,
    name: &Text,
    whole: &'a [Token],
    rest: &'a [Token],
) -> Result<Plan<'a>, AllocError>
    ensures { IfOk result (λ p. Plans p (annot_items what from name.now whole.now rest.now)) }
{
    let acts = Acts::One(Action::AnnotName(from, name.share()?));
    match what {
        Punctuator::Open => Ok(Plan::Do(acts, Then::Open(Frame::Items, Next::Item), rest)),
        _ => Ok(Plan::Do(acts, Then::Go(Next::AnnotDone), whole)),
    }
}

#[tactic(auto, unfolding(c_parser_moves::proofs::MachineDeclr::annot))]
pub fn start_annot<'a>(first: &'a Token, rest: &'a [Token]) -> Result<Plan<'a>, AllocError>
    ensures { IfOk result (λ p. Plans p (annot first.now.kind first.now.from rest.now)) }
{
    match &first.kind {
        Kind::Name(name) => {
            let others = skip_one(rest);
            start_items(mark_first(rest), first.from, name, rest, others)
        }
        _ => Ok(Plan::Refuse(rest)),
    }
}

#[tactic(auto, unfolding(c_parser_moves::proofs::MachineDeclr::annots_end))]
fn after_annot<'a>(what: Punctuator, target: Target, rest: &'a [Token]) -> Plan<'a>
    ensures { Plans result (annots_end what target rest.now) }
{
    match what {
        Punctuator::Comma => {
            Plan::Do(
                Acts::One(Action::AddAnnot),
                Then::Open(Frame::Annots(target), Next::Annot),
                rest,
            )
        }
        Punctuator::CloseBracket => {
            Plan::Do(
                Acts::One(Action::AddAnnot),
                Then::Go(Next::Specs(target)),
                rest,
            )
        }
        _ => Plan::Refuse(rest),
    }
}

#[tactic(auto, unfolding(c_parser_moves::proofs::MachineDeclr::annot_end))]
pub fn give_annot<'a>(frame: Frame, rest: &'a [Token]) -> Plan<'a>
    ensures { Plans result (annot_end frame rest.now) }
{
    match frame {
        Frame::Annots(target) => after_annot(mark_first(rest), target, skip_one(rest)),
        _ => Plan::Refuse(rest),
    }
}

#[tactic(auto, unfolding(c_parser_moves::proofs::MachineDeclr::atom_size))]
fn start_atom_type<'a>(what: Punctuator, rest: &'a [Token]) -> Plan<'a>
    ensures { Plans result (atom_size what rest.now) }
{
    match what {
        Punctuator::Open => Plan::Do(
            Acts::None,
            Then::Open(Frame::SizeofAtom, Next::TypeName),
            rest,
        ),
        _ => Plan::Refuse(rest),
    }
}

#[tactic(auto, unfolding(c_parser_moves::proofs::MachineDeclr::atom))]
pub fn start_atom<'a>(first: &'a Token, rest: &'a [Token]) -> Result<Plan<'a>, AllocError>
    ensures { IfOk result (λ p. Plans p (atom first.now.kind rest.now)) }
{
    match &first.kind {
        Kind::Name(name) => {
            let name = name.share()?;
            Ok(Plan::Do(
                Acts::One(Action::NameAtom(name)),
                Then::Go(Next::AtomDone),
                rest,
            ))
        }
        Kind::Number { value, .. } => {
            Ok(Plan::Do(
                Acts::One(Action::NumberAtom(*value)),
                Then::Go(Next::AtomDone),
                rest,
            ))
        }
        Kind::Word(Word::Return) => {
            Ok(Plan::Do(
                Acts::One(Action::ReturnAtom),
                Then::Go(Next::AtomDone),
                rest,
            ))
        }
        Kind::Word(Word::Sizeof) => Ok(start_atom_type(mark_first(rest), skip_one(rest))),
        _ => Ok(Plan::Refuse(rest)),
    }
}

#[tactic(auto, unfolding(c_parser_moves::proofs::MachineDeclr::factor))]
fn after_factor<'a>(what: Punctuator, from: u32, whole: &'a [Token], rest: &'a [Token]) -> Plan<'a>
    ensures { Plans result (factor what from whole.now rest.now) }
{
    match what {
        Punctuator::Star => Plan::Do(
            Acts::None,
            Then::Open(Frame::SecondFactor(from), Next::Atom),
            rest,
        ),
        _ => Plan::Do(
            Acts::One(Action::OneFactor(from)),
            Then::Go(Next::ItemDone),
            whole,
        ),
    }
}

#[tactic(auto, unfolding(c_parser_moves::proofs::MachineDeclr::atom_end))]
pub fn give_atom<'a>(frame: Frame, rest: &'a [Token]) -> Plan<'a>
    ensures { Plans result (atom_end frame rest.now) }
{
    match frame {
        Frame::FirstFactor(from) => after_factor(mark_first(rest), from, rest, skip_one(rest)),
        Frame::SecondFactor(from) => {
            Plan::Do(
                Acts::One(Action::TwoFactors(from)),
                Then::Go(Next::ItemDone),
                rest,
            )
        }
        _ => Plan::Refuse(rest),
    }
}

#[tactic(auto, unfolding(c_parser_moves::proofs::MachineDeclr::items_end))]
fn after_item<'a>(what: Punctuator, rest: &'a [Token]) -> Plan<'a>
    ensures { Plans result (items_end what rest.now) }
{
    match what {
        Punctuator::Comma => {
            Plan::Do(
                Acts::One(Action::AddItem),
                Then::Open(Frame::Items, Next::Item),
                rest,
            )
        }
        Punctuator::Close => Plan::Do(Acts::One(Action::AddItem), Then::Go(Next::AnnotDone), rest),
        _ => Plan::Refuse(rest),
    }
}

#[tactic(auto, unfolding(c_parser_moves::proofs::MachineDeclr::item_end))]
pub fn give_item<'a>(frame: Frame, rest: &'a [Token]) -> Plan<'a>
    ensures { Plans result (item_end frame rest.now) }
{
    match frame {
        Frame::Items => after_item(mark_first(rest), skip_one(rest)),
        _ => Plan::Refuse(rest),
    }
}

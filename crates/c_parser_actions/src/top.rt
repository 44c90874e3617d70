// The moves over whole sources.

ghost use Rattle.std.specs.Prelude.{IfOk};
ghost use Rattle.c_parser_moves.proofs.MachineSource.{struct_end, member_end, top, defines, tops};
ghost use Rattle.c_parser_actions.specs.Plans.{Plans};
ghost use Rattle.c_parser_actions.specs.Seen.{Goes};

use crate::parser::{Parser, Went, skip_one};
use crate::plan::{Acts, Plan, Then};
use crate::specifier::start_annotated;
use c_lexer::{Kind, Sign, Token, Word};
use c_parser_moves::{Action, DeclaredIn, Frame, Next, Punctuator, Target, mark_first};
use std::alloc::AllocError;

#[tactic(auto, unfolding(c_parser_moves::proofs::MachineSource::top, c_parser_moves::proofs::MachineSource::defines))]
fn start_top<'a>(rest: &'a [Token]) -> Result<Plan<'a>, AllocError>
    ensures { IfOk result (λ p. Plans p (top (defines rest.now) rest.now)) }
{
    match rest {
        [first, second, third, others @ ..] => match (&first.kind, &second.kind, &third.kind) {
            (Kind::Word(Word::Struct), Kind::Name(name), Kind::Sign(Sign::OpenBrace)) => {
                let name = name.share()?;
                Ok(Plan::Do(
                    Acts::Two(Action::Tag(first.from, name), Action::NoDecls),
                    Then::Open(Frame::Struct, Next::Names(DeclaredIn::Member)),
                    others,
                ))
            }
            _ => Ok(start_annotated(mark_first(rest), Target::Top, rest, skip_one(rest))),
        },
        _ => Ok(start_annotated(mark_first(rest), Target::Top, rest, skip_one(rest))),
    }
}

impl Parser {
    #[tactic(auto, unfolding(c_parser_moves::proofs::MachineSource::struct_end))]
    fn end_struct<'a>(&mut self, what: Punctuator, rest: &'a [Token]) -> Went<'a>
        ensures { Goes result self.old self.new (struct_end what rest.now) }
    {
        match what {
            Punctuator::Semicolon => match self.pop() {
                None => Ok((Next::Fail, rest)),
                Some(Frame::Struct) => {
                    self.emit(Action::Struct)?;
                    Ok((Next::Top, rest))
                }
                Some(frame) => {
                    self.open(frame)?;
                    Ok((Next::Fail, rest))
                }
            },
            _ => Ok((Next::Fail, rest)),
        }
    }

    #[tactic(auto, unfolding(c_parser_moves::proofs::MachineSource::member_end))]
    pub fn next_member<'a>(
        &mut self,
        what: Punctuator,
        whole: &'a [Token],
        rest: &'a [Token],
    ) -> Went<'a>
        ensures { Goes result self.old self.new (member_end what whole.now rest.now) }
    {
        match what {
            Punctuator::CloseBrace => self.end_struct(mark_first(rest), skip_one(rest)),
            _ => Ok((Next::Names(DeclaredIn::Member), whole)),
        }
    }

    fn begin_top<'a>(&mut self, rest: &'a [Token]) -> Went<'a>
        ensures { Goes result self.old self.new (top (defines rest.now) rest.now) }
    {
        self.go(start_top(rest))
    }

    #[tactic(auto, unfolding(c_parser_moves::proofs::MachineSource::tops))]
    pub fn next_top<'a>(&mut self, rest: &'a [Token]) -> Went<'a>
        ensures { Goes result self.old self.new (tops rest.now) }
    {
        match rest {
            [] => match self.pop() {
                None => Ok((Next::End, rest)),
                Some(frame) => {
                    self.open(frame)?;
                    self.begin_top(rest)
                }
            },
            [_, ..] => self.begin_top(rest),
        }
    }
}

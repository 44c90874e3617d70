// The steps over operands and values, which are most of all: they do what is to be done without a plan.

ghost use Rattle.c_parser_moves.proofs.MachineExpr.{give};
ghost use Rattle.c_parser_moves.proofs.MachineSteps.{given, read_next, taken};
ghost use Rattle.c_parser_moves.specs.declared.frame.Frame.TheVariants.{Climb};
ghost use Rattle.c_parser_moves.specs.declared.frame.Next.TheVariants as nexts;
ghost use Rattle.c_parser_actions.specs.Seen.{Goes};

use crate::expression::{after_operand, give_operand, give_value, start_operand};
use crate::parser::{Parser, Went, skip_one};
use c_lexer::{Kind, Token};
use c_parser_moves::{Action, After, Frame, Next, after_first};

impl Parser {
    /// Reads the first token of an operand, which may be all of it.
    #[tactic(auto, unfolding(c_parser_moves::proofs::MachineSteps::take_next, c_parser_moves::proofs::MachineExpr::start))]
    pub fn read_operand<'a>(&mut self, rest: &'a [Token]) -> Went<'a>
        ensures { Goes result self.old self.new (taken nexts.Operand rest.now) }
    {
        match rest {
            [] => Ok((Next::Fail, rest)),
            [first, others @ ..] => match &first.kind {
                Kind::Name(name) => {
                    self.emit(Action::Name(first.from, name.share()?))?;
                    Ok((Next::After(first.from), others))
                }
                _ => self.go(start_operand(first, others)),
            },
        }
    }

    /// Goes on by what follows an expression of level 15, which began at `from`.
    #[tactic(auto, unfolding(c_parser_moves::proofs::MachineSteps::read_next, c_parser_moves::proofs::MachineExpr::after))]
    pub fn read_after<'a>(&mut self, from: u32, rest: &'a [Token]) -> Went<'a>
        ensures { Goes result self.old self.new (read_next (nexts.After from) rest.now) }
    {
        match after_first(rest) {
            After::Binary(_, _) | After::Assign(_) | After::Question | After::Other => {
                Ok((Next::Done(14), rest))
            }
            what => self.go(after_operand(what, from, rest, skip_one(rest))),
        }
    }

    /// Gives an operand of a level to the expression that it is in, which wanted one of another level and began at `from`.
    #[tactic(auto, unfolding(c_parser_moves::proofs::MachineExpr::give, c_parser_moves::proofs::MachineExpr::climb, c_parser_moves::proofs::MachineExpr::close))]
    fn climb<'a>(&mut self, wanted: u8, from: u32, level: u8, rest: &'a [Token]) -> Went<'a>
        ensures { Goes result self.old self.new (give (Climb wanted from) level rest.now) }
    {
        match after_first(rest) {
            After::Binary(at, sign) if wanted <= at && at <= level => {
                self.open(Frame::Climb(wanted, from))?;
                self.begin(Frame::Binary(at, from, sign), at + 1, skip_one(rest))
            }
            After::Other if wanted <= level => Ok((Next::Value, rest)),
            _ => self.go(Ok(give_operand(Frame::Climb(wanted, from), level, rest))),
        }
    }

    /// Gives an operand of a level to the construct that was opened last.
    #[tactic(auto, unfolding(c_parser_moves::proofs::MachineSteps::give_next))]
    pub fn give_level<'a>(&mut self, level: u8, rest: &'a [Token]) -> Went<'a>
        ensures { Goes result self.old self.new (given (nexts.Done level) rest.now) }
    {
        match self.pop() {
            None => Ok((Next::Fail, rest)),
            Some(Frame::Climb(wanted, from)) => self.climb(wanted, from, level, rest),
            Some(frame) => self.go(Ok(give_operand(frame, level, rest))),
        }
    }

    /// Gives an expression to the construct that was opened last.
    #[tactic(auto, unfolding(c_parser_moves::proofs::MachineSteps::give_next, c_parser_moves::proofs::MachineExpr::value))]
    pub fn give_whole<'a>(&mut self, rest: &'a [Token]) -> Went<'a>
        ensures { Goes result self.old self.new (given nexts.Value rest.now) }
    {
        match self.pop() {
            None => Ok((Next::Fail, rest)),
            Some(Frame::Binary(level, from, sign)) => {
                self.emit(Action::Binary(from, sign))?;
                Ok((Next::Done(level), rest))
            }
            Some(frame) => self.go(Ok(give_value(frame, rest))),
        }
    }
}

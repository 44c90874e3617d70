// The state of the parser.

ghost use Rattle.std.specs.Prelude.{◌≡◌, ◌++◌, ◌∷◌, [], List, OnOk, IfOk, reverse};
ghost use Rattle.c_parser_moves.proofs.Machine.{Move, begin, tail};
ghost use Rattle.c_parser_moves.specs.declared.frame.Frame.{Frame as Construct};
ghost use Rattle.c_parser_actions.specs.Plans.{Plans, acts_of, planned};
ghost use Rattle.c_parser_actions.specs.Seen.{Goes, IsTop, acts_seen, opens_seen};

use crate::plan::{Acts, Plan, Then};
use c_lexer::Token;
use c_parser_moves::{Action, Frame, Next, from_first};
use std::alloc::AllocError;

/// What comes next, and the tokens after it.
pub type Went<'a> = Result<(Next, &'a [Token]), AllocError>;

/// The actions so far, and the constructs that are open.
#[derive(Drop)]
pub struct Parser {
    pub actions: Vec<Action>,
    pub frames: Vec<Frame>,
}

impl Parser {
    /// Opens a construct.
    #[inline(always)]
    pub fn open(&mut self, frame: Frame) -> Result<(), AllocError>
        ensures opens { OnOk result (opens_seen self.new ≡ frame ∷ opens_seen self.old) }
        ensures acts { OnOk result (acts_seen self.new ≡ acts_seen self.old) }
    {
        self.frames.push(frame)?;
        Ok(())
    }

    /// The construct that was opened last.
    pub fn pop(&mut self) -> Option<Frame>
        ensures opens { IsTop result (opens_seen self.old) (opens_seen self.new) }
        ensures acts { acts_seen self.new ≡ acts_seen self.old }
    {
        self.frames.pop()
    }

    /// The construct that was opened last, which stays open.
    pub fn newest(&self) -> Option<Frame> {
        self.frames.last().copied()
    }

    pub fn emit(&mut self, action: Action) -> Result<(), AllocError>
        ensures acts { OnOk result (acts_seen self.new ≡ action ∷ acts_seen self.old) }
        ensures opens { OnOk result (opens_seen self.new ≡ opens_seen self.old) }
    {
        self.actions.push(action)?;
        Ok(())
    }

    fn emit_two(&mut self, first: Action, second: Action) -> Result<(), AllocError>
        ensures acts { OnOk result (acts_seen self.new ≡ second ∷ first ∷ acts_seen self.old) }
        ensures opens { OnOk result (opens_seen self.new ≡ opens_seen self.old) }
    {
        self.emit(first)?;
        self.emit(second)
    }

    fn emit_three(&mut self, first: Action, second: Action, third: Action) -> Result<(), AllocError>
        ensures acts { OnOk result (acts_seen self.new ≡ third ∷ second ∷ first ∷ acts_seen self.old) }
        ensures opens { OnOk result (opens_seen self.new ≡ opens_seen self.old) }
    {
        self.emit_two(first, second)?;
        self.emit(third)
    }

    fn emit_four(
        &mut self,
        first: Action,
        second: Action,
        third: Action,
        fourth: Action,
    ) -> Result<(), AllocError>
        ensures acts { OnOk result
            (acts_seen self.new ≡ fourth ∷ third ∷ second ∷ first ∷ acts_seen self.old) }
        ensures opens { OnOk result (opens_seen self.new ≡ opens_seen self.old) }
    {
        self.emit_two(first, second)?;
        self.emit_two(third, fourth)
    }

    #[inline(always)]
    fn emit_all(&mut self, acts: Acts) -> Result<(), AllocError>
        ensures acts { OnOk result (acts_seen self.new ≡ acts_of acts ++ acts_seen self.old) }
        ensures opens { OnOk result (opens_seen self.new ≡ opens_seen self.old) }
    {
        match acts {
            Acts::None => Ok(()),
            Acts::One(first) => self.emit(first),
            Acts::Two(first, second) => self.emit_two(first, second),
            Acts::Three(first, second, third) => self.emit_three(first, second, third),
            Acts::Four(first, second, third, fourth) => self.emit_four(
                first, second, third, fourth,
            ),
        }
    }

    /// Opens a construct, in which an expression of this level is to be read.
    #[inline(always)]
    pub fn begin<'a>(&mut self, frame: Frame, level: u8, rest: &'a [Token]) -> Went<'a>
        ensures { Goes result self.old self.new (λ K. begin level [] rest.now (frame ∷ K)) }
    {
        self.open(frame)?;
        self.open(Frame::Climb(level, from_first(rest)))?;
        Ok((Next::Operand, rest))
    }

    /// Does what is to be done, where there was memory to tell it.
    #[inline(always)]
    pub fn go<'a>(&mut self, plan: Result<Plan<'a>, AllocError>) -> Went<'a>
        ensures { (m : List Construct → Move) → IfOk plan.entry (λ p. Plans p m) →
            Goes result self.old self.new m }
    {
        match plan {
            Ok(plan) => self.carry_out(plan),
            Err(error) => Err(error),
        }
    }

    #[inline(always)]
    fn carry_out<'a>(&mut self, plan: Plan<'a>) -> Went<'a>
        ensures { Goes result self.old self.new (planned plan.entry) }
    {
        match plan {
            Plan::Refuse(rest) => Ok((Next::Fail, rest)),
            Plan::Do(acts, then, rest) => {
                self.emit_all(acts)?;
                match then {
                    Then::Go(next) => Ok((next, rest)),
                    Then::Open(frame, next) => {
                        self.open(frame)?;
                        Ok((next, rest))
                    }
                    Then::Read(frame, level) => self.begin(frame, level, rest),
                }
            }
            Plan::ReadIn(outer, frame, level, rest) => {
                self.open(outer)?;
                self.begin(frame, level, rest)
            }
        }
    }

    /// The actions, in order.
    #[tactic(auto, unfolding(crate::specs::Seen::acts_seen))]
    pub fn into_actions(self) -> Vec<Action>
        ensures actions { reverse result.items ≡ acts_seen self }
    {
        let Parser { actions, frames: _ } = self;
        actions
    }
}

/// All but the first.
pub fn skip_one(rest: &[Token]) -> &[Token]
    ensures { result.now ≡ tail rest.now }
{
    match rest {
        [] => rest,
        [_, others @ ..] => others,
    }
}

// Where tokens can't go on.

use crate::specifier::at_top;
use c_lexer::{Kind, Sign, Token, Word};
use c_parser_moves::{Frame, Next, words_read};
use std::alloc::AllocError;

/// A step of the parser: what came next, the construct that was opened last, and the tokens that were left.
#[derive(Clone, Copy)]
pub struct Step<'a> {
    pub next: Next,
    pub open: Option<Frame>,
    pub rest: &'a [Token],
}

/// Whether the step takes this token for the first of two that it reads.
fn begins_two(next: Next, open: Option<Frame>, kind: &Kind) -> bool {
    match (next, kind) {
        (Next::Stmt, Kind::Word(Word::If | Word::While | Word::For | Word::Break | Word::Continue))
        | (Next::StmtDone, Kind::Word(Word::While))
        | (Next::After(_), Kind::Sign(Sign::Dot | Sign::Arrow))
        | (Next::Atom, Kind::Word(Word::Sizeof))
        | (Next::MemberEnd, Kind::Sign(Sign::CloseBrace)) => true,
        (Next::Value, Kind::Sign(Sign::CloseParenthesis)) => {
            matches!(open, Some(Frame::DoCond(_)))
        }
        _ => false,
    }
}

impl Step<'_> {
    /// How many tokens it read before the one that it failed at.
    fn count(self) -> Result<usize, AllocError> {
        match (self.next, self.rest) {
            (Next::TypeName | Next::Names(_), _) => words_read(false, self.rest),
            (Next::Specs(target), _) => words_read(at_top(target), self.rest),
            (next, [first, ..]) if begins_two(next, self.open, &first.kind) => Ok(1),
            _ => Ok(0),
        }
    }

    /// The offset of the token that it failed at, or of the end of all tokens.
    pub fn refusal(self, tokens: &[Token]) -> Result<u32, AllocError> {
        let count = self.count()?;
        Ok(match (self.rest.get(count), tokens) {
            (Some(token), _) => token.from,
            (None, [.., last]) => last.to,
            (None, []) => 0,
        })
    }
}

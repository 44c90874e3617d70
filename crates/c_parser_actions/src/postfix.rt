// Whole token lists.

ghost use Rattle.std.specs.Prelude.{◌≡◌, IfOk, IfErr};
ghost use Rattle.c_parser_moves.proofs.MachineSteps.{works};
ghost use Rattle.c_parser_actions.specs.Builds.{Found, Only, Refused};

use crate::ahead::look_ahead;
use crate::parser::Parser;
use crate::refusal::Step;
use c_lexer::Token;
use c_parser_moves::{Action, Next};
use std::alloc::{AllocError, Global};

/// Why tokens have no postfix form.
#[derive(Drop)]
pub enum PostfixError {
    /// No source of the grammar has these tokens. The offset is that of the first token that can't go on, or
    /// of the end of the last one.
    Token(u32),
    Memory,
}

impl From<AllocError> for PostfixError {
    ghost use Rattle.c_parser_actions.specs.declared.postfix.PostfixError.TheVariants.{Memory};

    ghost from_gives = { λ _ e. e ≡ Memory };

    fn from(error: AllocError) -> Self {
        let _ = error;
        PostfixError::Memory
    }
}

/// The actions that build the tree of the tokens, in order.
pub fn actions(alloc: Global, tokens: &[Token]) -> Result<Vec<Action>, PostfixError>
    // They build a source that has these tokens.
    ensures found { IfOk result (λ v. Found tokens.now v.items) }
    // And no other has them.
    ensures only { IfOk result (λ v. Only tokens.now v.items) }
    // What is refused has no tree.
    ensures none { IfErr result (λ e. Refused tokens.now e) }
{
    let ahead = look_ahead(alloc, tokens)?;
    let mut parser = Parser {
        actions: Vec::new(alloc),
        frames: Vec::new(alloc),
    };
    parser.emit(Action::NoDecls)?;
    let mut next = Next::Top;
    let mut rest = tokens;
    let mut at = Step {
        next,
        open: None,
        rest,
    };
    while is_working(next) {
        at = Step {
            next,
            open: parser.newest(),
            rest,
        };
        let (then, others) = parser.step(&ahead, next, rest)?;
        next = then;
        rest = others;
    }
    match next {
        Next::End => Ok(parser.into_actions()),
        _ => Err(PostfixError::Token(at.refusal(tokens)?)),
    }
}

fn is_working(next: Next) -> bool
    ensures { result ≡ works next }
{
    match next {
        Next::Fail | Next::End => false,
        _ => true,
    }
}

// What a step of the parser is to do.

use c_lexer::Token;
use c_parser_moves::{Action, Frame, Next};

/// The actions of a step, in order.
#[derive(Drop)]
pub enum Acts {
    None,
    One(Action),
    Two(Action, Action),
    Three(Action, Action, Action),
    Four(Action, Action, Action, Action),
}

/// What comes after the actions.
#[derive(Clone, Copy)]
pub enum Then {
    /// This comes next.
    Go(Next),
    /// A construct is opened, and this comes next.
    Open(Frame, Next),
    /// A construct is opened, in which an expression of this level is to be read.
    Read(Frame, u8),
}

/// What is to be done, and the tokens that are left after it.
///
/// The actions stand in one variant alone, since Rattle's own compiler takes no type that holds over 8192 others,
/// counted through all variants.
#[derive(Drop)]
pub enum Plan<'a> {
    /// The tokens can't go on.
    Refuse(&'a [Token]),
    /// These actions are done first.
    Do(Acts, Then, &'a [Token]),
    /// Two constructs are opened, the second in the first, and in it an expression of this level is to be read.
    ReadIn(Frame, Frame, u8, &'a [Token]),
}

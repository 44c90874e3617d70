//! The states of the parser: the actions that it gives, the constructs that are open, what it reads next, and what it tells
//! tokens apart by.
#![tactic(auto)]

mod action;
mod frame;
mod mark;
mod words;

pub use action::Action;
pub use frame::{DeclaredIn, Frame, Naming, Next, Target};
pub use mark::{
    After, Begin, Punctuator, after_first, after_operator, begin_kind, else_first, from_first,
    mark_first, mark_kind, open_type_first, prefix_sign, type_first, type_word, void_first,
};
pub use words::{after_consts, specs, words_read};

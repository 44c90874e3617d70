//! The tokens of a C source.
#![tactic(auto)]

mod bytes;
mod error;
mod gap;
mod item;
mod lexing;
mod names;
mod number;
mod quoted;
mod spelling;
mod text;
mod text_part;
mod token;

pub use error::LexError;
pub use lexing::{lex, longest_sign, one_reading};
pub use text::Text;
pub use token::{Kind, Sign, Suffix, Token, Word};

//! The tree of a C source, from its tokens.
#![tactic(auto)]

mod parsing;

pub use parsing::{ParseError, Parsed, build_counted, parse, parse_counted, postfix};

//! Why a source isn't accepted.

ghost use Rattle.std.specs.Prelude.{◌≡◌};
ghost use Rattle.front_end.specs.declared.error.SourceError.TheVariants.{Memory as NoMemory};
ghost use Rattle.front_end.specs.Errors.{by_annotations, by_code, by_grammar, by_tokens, by_types, found};

use annot_reader::InterfaceError;
use c_lexer::LexError;
use c_lower::LowerError;
use c_parser::ParseError;
use c_types::{CheckError, Which};
use std::alloc::AllocError;
use thiserror::Error;

/// A rule that a source breaks: of its tokens, its grammar, its types or its annotations.
#[derive(Clone, Copy, Debug, PartialEq, Eq)]
pub enum SourceRule {
    /// A byte belongs to no token.
    Byte,
    /// A comment, character or string isn't closed.
    Text,
    /// A number is too big for its types.
    Number,
    /// A line that begins with `#` is no line marker.
    Directive,
    /// No source of the grammar has the tokens.
    Token,
    /// More than 200 nodes hold a node.
    Deep,
    /// The rule of types with this number, 1 to 21.
    Type(u8),
    /// The rule of annotations with this number, 1 to 9.
    Annotation(u8),
}

/// What is wrong with a source: the rule that it breaks, and the offset at which.
#[derive(Clone, Copy, Debug, PartialEq, Eq)]
pub struct SourceFault {
    pub rule: SourceRule,
    pub at: u32,
}

/// A limit that a source may not exceed.
#[derive(Clone, Copy, Debug, PartialEq, Eq)]
pub enum SourceLimit {
    /// One of those that its types tell.
    Types(Which),
    /// 131,072 nodes of its tree.
    Nodes,
    /// 64 values on the evaluation stack in a function, in what is evaluated or not.
    Values,
}

/// Why a source isn't accepted. The first of these that stands is answered, in the order in which they are listed here and in
/// `SourceRule`, but the limits of types come before the annotations, and nodes and values last.
#[derive(Clone, Copy, Debug, PartialEq, Eq, Error)]
pub enum SourceError {
    /// It breaks this rule.
    #[error("the source breaks a rule: {0:?}")]
    Fault(SourceFault),
    /// No declaration names the cut.
    #[error("no declaration names the cut")]
    NoSuchCut,
    /// It exceeds this limit.
    #[error("the source is too large: {0:?}")]
    Limit(SourceLimit),
    /// Out of memory.
    #[error("out of memory")]
    Memory,
}

fn broken(rule: SourceRule, at: u32) -> SourceError
    ensures { result ≡ found rule at }
{
    SourceError::Fault(SourceFault { rule, at })
}

impl From<LexError> for SourceError {
    ghost from_gives = { λ x e. e ≡ by_tokens x };

    fn from(error: LexError) -> Self {
        match error {
            LexError::BadByte(at) => broken(SourceRule::Byte, at),
            LexError::OpenText(at) => broken(SourceRule::Text, at),
            LexError::BigNumber(at) => broken(SourceRule::Number, at),
            LexError::Directive(at) => broken(SourceRule::Directive, at),
            LexError::Memory => SourceError::Memory,
        }
    }
}

impl From<ParseError> for SourceError {
    ghost from_gives = { λ x e. e ≡ by_grammar x };

    fn from(error: ParseError) -> Self {
        match error {
            ParseError::Token(at) => broken(SourceRule::Token, at),
            ParseError::Deep(at) => broken(SourceRule::Deep, at),
            ParseError::Memory => SourceError::Memory,
        }
    }
}

impl From<CheckError> for SourceError {
    ghost from_gives = { λ x e. e ≡ by_types x };

    fn from(error: CheckError) -> Self {
        match error {
            CheckError::Rule(at, rule) => broken(SourceRule::Type(rule), at),
            CheckError::Limit(which) => SourceError::Limit(SourceLimit::Types(which)),
            CheckError::Memory => SourceError::Memory,
        }
    }
}

impl From<InterfaceError> for SourceError {
    ghost from_gives = { λ x e. e ≡ by_annotations x };

    fn from(error: InterfaceError) -> Self {
        match error {
            InterfaceError::Rule(at, rule) => broken(SourceRule::Annotation(rule), at),
            InterfaceError::NoSuchCut => SourceError::NoSuchCut,
            InterfaceError::Memory => SourceError::Memory,
        }
    }
}

impl From<LowerError> for SourceError {
    ghost from_gives = { λ x e. e ≡ by_code x };

    fn from(error: LowerError) -> Self {
        match error {
            LowerError::Long => SourceError::Limit(SourceLimit::Nodes),
            LowerError::Wide(_) => SourceError::Limit(SourceLimit::Values),
            LowerError::Memory => SourceError::Memory,
        }
    }
}

impl From<AllocError> for SourceError {
    ghost from_gives = { λ _ e. e ≡ NoMemory };

    fn from(_: AllocError) -> Self {
        SourceError::Memory
    }
}

//! A source as all commands take it: read as tokens, by its grammar, its types and its annotations, with its flat code.
#![tactic(auto)]

mod code;
mod error;
mod source;

pub use error::{SourceError, SourceFault, SourceLimit, SourceRule};
pub use source::{CheckedSource, CountedSource, check_source, typed_source};

//! What a source means by its types: the typed tree of a source, or a rule that it breaks.
#![tactic(auto)]

mod laws;

pub use laws::types_are_compared;

//! What the annotations of a source mean for a cut.
#![tactic(auto)]

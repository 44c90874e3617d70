//! What a step of the reference recorder is made from, and what it makes: definitions.
#![tactic(auto)]

//! Causal order: what ties the events of several threads to each other, what comes directly before an event, chains of
//! such events, and logical clocks.
#![tactic(auto)]

//! Clocks of small runs, and races that a watch finds in them, worked out by hand.
#![tactic(auto)]

#[cfg(test)]
mod clocks;
#[cfg(test)]
mod races;

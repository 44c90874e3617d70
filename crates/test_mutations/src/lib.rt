//! What `order` and `check` leave of every prefix of a log and of a source, and of every change of a byte of one.
#![tactic(auto)]

#[cfg(test)]
mod logs;
#[cfg(test)]
mod sources;

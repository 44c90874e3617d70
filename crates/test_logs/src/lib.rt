//! Logs, written, against bytes that were spelled by hand.
#![tactic(auto)]

#[cfg(test)]
mod logs;

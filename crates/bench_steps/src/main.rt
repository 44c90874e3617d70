//! A program to be timed: loops under a thread, without calls and with them.
//!
//! With the word `thread` or `calls` it does one of the two, without a word both. Of each it prints the number of marks, and what its
//! `main` gives.
#![tactic(auto)]

mod thread;

use std::env;
use thread::{over_calls, over_thread};

fn main(rt: HostRuntime) -> anyhow::Result<()> {
    let word = env::args(&rt)?.nth(1);
    let word = word.as_deref().unwrap_or("all");
    if word == "thread" || word == "all" {
        let (marks, result) = over_thread(rt.alloc())?;
        println!(rt; "thread {marks} {result}")?;
    }
    if word == "calls" || word == "all" {
        let (marks, result) = over_calls(rt.alloc())?;
        println!(rt; "calls {marks} {result}")?;
    }
    Ok(())
}

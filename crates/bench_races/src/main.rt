//! A program to be timed: the clocks of a million events, and a watch over ten million accesses.
//!
//! The first word says which: `clocks`, whose second word is how many different keys of each of two classes there are, or `events`, which
//! tells a watch of the same events; or `own`, `locals`, `turns`, `passes`, `reads`, `writes`, `both` or `constants` of a watch, whose
//! second word is how many accesses there are. It prints the last clock and the sum of all tickets, which wraps, how many events there
//! were, or how many races, which is none.
#![tactic(auto)]

mod clocks;
mod watch;

use anyhow::Context;
use clocks::over_clocks;
use std::env;
use watch::{Case, over_events, over_watch};

/// The case that a word names.
fn case_of(word: &str) -> Option<Case> {
    match word {
        "own" => Some(Case::Own),
        "locals" => Some(Case::Locals),
        "turns" => Some(Case::Turns),
        "passes" => Some(Case::Passes),
        "reads" => Some(Case::Reads),
        "writes" => Some(Case::Writes),
        "both" => Some(Case::Both),
        "constants" => Some(Case::Constants),
        _ => None,
    }
}

fn main(rt: HostRuntime) -> anyhow::Result<()> {
    let mut words = env::args(&rt)?;
    let word = words.nth(1);
    let word = word.as_deref().unwrap_or("clocks");
    let number = words.next();
    let number = number.as_deref().unwrap_or("100");
    let number = number.parse::<u32>().ok().context("no number")?;
    match case_of(word) {
        None if word == "events" => {
            let events = over_events(rt.alloc(), u64::from(number.max(1)))?;
            println!(rt; "events {events}")?;
        }
        None => {
            let (clock, sum) = over_clocks(rt.alloc(), u64::from(number.max(1)))?;
            println!(rt; "clock {clock} tickets {sum}")?;
        }
        Some(case) => {
            let races = over_watch(rt.alloc(), case, number.min(10_000_000))?;
            println!(rt; "races {races}")?;
        }
    }
    Ok(())
}

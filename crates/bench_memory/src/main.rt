//! A program to be timed: accesses to the memory of a run, and the same over plain bytes.
//!
//! `KIND spaces ROUNDS` and `KIND plain ROUNDS` print what so many accesses of a kind make, which is the same. Without words
//! each kind is made some times.
#![tactic(auto)]

mod kind;
mod measured;
mod pattern;
mod plain;
mod spaces;

use kind::{AccessKind, KINDS};
use measured::{over_plain, over_spaces};
use std::env;

/// How many rounds there are where no word says it.
const FEW: u64 = 10_000;

/// What accesses of a kind make, over the memory of a run or over plain bytes.
fn made(rt: &HostRuntime, kind: AccessKind, over: &str, rounds: u64) -> anyhow::Result<u64> {
    if over == "plain" {
        return Ok(over_plain(rt.alloc(), kind, rounds)?);
    }
    over_spaces(rt.alloc(), kind, rounds)
}

fn main(rt: HostRuntime) -> anyhow::Result<()> {
    let mut words = env::args(&rt)?.skip(1);
    let word = words.next();
    let over = words.next();
    let rounds = words.next();
    let rounds = match rounds {
        Some(rounds) => rounds.as_str().parse::<u64>()?,
        None => FEW,
    };
    for kind in KINDS {
        if word.as_deref().is_some_and(|word| word != kind.name()) {
            continue;
        }
        for place in ["spaces", "plain"] {
            if over.as_deref().is_none_or(|over| over == place) {
                let sum = made(&rt, kind, place, rounds)?;
                println!(rt; "{} {place} {sum}", kind.name())?;
            }
        }
    }
    Ok(())
}

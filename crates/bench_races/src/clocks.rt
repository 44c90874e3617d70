//! The clocks of a million events with two keys each.

ghost use Rattle.std.specs.Prelude.{◌<◌};
ghost use Rattle.logical_clock.specs.Events.{AreDistinct};

use logical_clock::{Class, Clocks, Key, Stamp};
use std::alloc::{AllocError, Global};

/// How many events there are.
pub const EVENTS: u32 = 1_000_000;

/// How many threads make them, in turn.
pub const THREADS: u8 = 8;

/// The keys of an event: one of each of two classes, in a scattered order.
pub fn keys(round: u32, different: u64) -> [Key; 2]
    requires { 0 < different }
    ensures { AreDistinct result }
{
    let at = u64::from(round).wrapping_mul(2_654_435_761);
    [
        Key {
            class: Class::Mutex,
            value: at % different,
        },
        Key {
            class: Class::User,
            value: (at / 7) % different,
        },
    ]
}

/// A sum, with the tickets of an event added.
fn with_tickets(sum: u64, stamp: &Stamp) -> u64 {
    let mut all = sum;
    let tickets = stamp.tickets.unpacked();
    for ticket in tickets.as_slice() {
        all = all.wrapping_add(*ticket);
    }
    all
}

/// The last clock, and the sum of all tickets, where there are so many different keys of each class.
pub fn over_clocks(alloc: Global, different: u64) -> Result<(u32, u64), AllocError>
    requires { 0 < different }
{
    let mut clocks = Clocks::new(alloc, THREADS)?;
    let mut clock = 0;
    let mut sum = 0;
    for round in 0..EVENTS {
        let stamp = clocks.event(alloc, (round % 8) as u8, &keys(round, different))?;
        clock = stamp.clock;
        sum = with_tickets(sum, &stamp);
    }
    Ok((clock, sum))
}

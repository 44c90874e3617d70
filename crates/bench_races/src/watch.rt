//! A watch over accesses of eight bytes each by four threads.

ghost use Rattle.std.specs.Prelude.{◌<◌};

use crate::clocks::{EVENTS, THREADS, keys};
use memory_map::Range;
use race_watch::{Watch, WatchError};
use run_events::{Class, Key};
use std::alloc::Global;

/// What the threads do.
#[derive(Clone, Copy)]
pub enum Case {
    /// Each has two pages of its own stack, and makes no event.
    Own,
    /// The same, but each writes and reads all of its bytes.
    Locals,
    /// Turns of 64 accesses over four pages of globals, every second one a write, with two events between turns.
    Turns,
    /// Each has 64 KiB of its own stack, with an event after each pass over it.
    Passes,
    /// All read the same 64 KiB of globals, with an event after each pass.
    Reads,
    /// Each in turn writes the same 512 KiB of globals, with two events after each pass.
    Writes,
    /// Each in turn writes the same 64 KiB of globals, and then each in turn reads them, with two events after each pass.
    Both,
    /// All read the same 64 KiB of constants, with an event after each pass.
    Constants,
}

/// An access, and whether its thread makes an event after it, and the next thread one after that.
#[derive(Clone, Copy)]
struct Access {
    thread: u8,
    addr: u64,
    write: bool,
    event: bool,
    next: bool,
}

/// The accesses of a case, by their number.
fn access_of(case: Case, round: u32) -> Access
    ensures { result.thread < 4 }
{
    match case {
        Case::Own => {
            let thread = (round % 4) as u8;
            let slot = u64::from(round / 4 % 64);
            Access {
                thread,
                addr: 0x2000_0000 + 0x1_0000 * u64::from(thread) + 8 * slot,
                write: round % 8 < 4,
                event: false,
                next: false,
            }
        }
        Case::Locals => {
            let thread = (round % 4) as u8;
            let slot = u64::from(round / 4 % 64);
            Access {
                thread,
                addr: 0x2000_0000 + 0x1_0000 * u64::from(thread) + 8 * slot,
                write: round % 512 < 256,
                event: false,
                next: false,
            }
        }
        Case::Turns => {
            let slot = u64::from(round % 128);
            Access {
                thread: (round / 64 % 4) as u8,
                addr: 0x1000_0000 + 8 * slot,
                write: round % 2 == 0,
                event: round % 64 == 63,
                next: true,
            }
        }
        Case::Passes => {
            let thread = (round / 8192 % 4) as u8;
            let slot = u64::from(round % 8192);
            Access {
                thread,
                addr: 0x2000_0000 + 0x1_0000 * u64::from(thread) + 8 * slot,
                write: round % 2 == 0,
                event: round % 8192 == 8191,
                next: false,
            }
        }
        Case::Reads => {
            let slot = u64::from(round % 8192);
            Access {
                thread: (round / 8192 % 4) as u8,
                addr: 0x1000_0000 + 8 * slot,
                write: false,
                event: round % 8192 == 8191,
                next: false,
            }
        }
        Case::Writes => {
            let slot = u64::from(round % 65_536);
            Access {
                thread: (round / 65_536 % 4) as u8,
                addr: 0x1000_0000 + 8 * slot,
                write: true,
                event: round % 65_536 == 65_535,
                next: true,
            }
        }
        Case::Both => {
            let slot = u64::from(round % 8192);
            Access {
                thread: (round / 8192 % 4) as u8,
                addr: 0x1000_0000 + 8 * slot,
                write: round / 32_768 % 2 == 0,
                event: round % 8192 == 8191,
                next: true,
            }
        }
        Case::Constants => {
            let slot = u64::from(round % 8192);
            Access {
                thread: (round / 8192 % 4) as u8,
                addr: 0x10_0000 + 8 * slot,
                write: false,
                event: round % 8192 == 8191,
                next: false,
            }
        }
    }
}

/// How many of so many accesses race.
pub fn over_watch(alloc: Global, case: Case, accesses: u32) -> Result<u32, WatchError>
    requires { accesses < 10000001 }
{
    let mut watch = Watch::new(alloc, 4).map_err(|_| WatchError::Memory)?;
    let key = Key {
        class: Class::Mutex,
        value: 0,
    };
    let mut races = 0;
    for round in 0..accesses {
        let one = access_of(case, round);
        let range = Range {
            addr: one.addr,
            len: 8,
        };
        if watch.access(one.thread, range, one.write).is_err() {
            races += 1;
        }
        if one.event {
            watch
                .event(one.thread, &[key])
                .map_err(|_| WatchError::Memory)?;
            if one.next {
                watch
                    .event((one.thread + 1) % 4, &[key])
                    .map_err(|_| WatchError::Memory)?;
            }
        }
    }
    Ok(races)
}

/// Tells a watch of as many events as `over_clocks` makes, with the same keys. Gives how many there were.
pub fn over_events(alloc: Global, different: u64) -> Result<u32, WatchError>
    requires { 0 < different }
{
    let mut watch = Watch::new(alloc, THREADS).map_err(|_| WatchError::Memory)?;
    for round in 0..EVENTS {
        watch
            .event((round % 8) as u8, &keys(round, different))
            .map_err(|_| WatchError::Memory)?;
    }
    Ok(EVENTS)
}

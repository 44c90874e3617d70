//! The clocks and tickets of small runs (`logical_clock`).

ghost use Rattle.std.specs.Prelude.{◌≡◌, ◌+◌, ◌<◌, length, OnOk};

use logical_clock::{Class, Clocks, Key, Stamp};
use std::alloc::{AllocError, Global};
use std::test::*;

/// An event with one key: its thread, the key, its clock and its ticket.
#[derive(Clone, Copy)]
struct Case {
    thread: u8,
    key: Key,
    clock: u32,
    ticket: u64,
}

/// The event of a thread with the key of this class and value.
fn event_of(thread: u8, class: Class, value: u64, clock: u32, ticket: u64) -> Case {
    Case {
        thread,
        key: Key { class, value },
        clock,
        ticket,
    }
}

/// The stamp of the next event. Where there is no memory once, nothing has changed, so that the second answer is the first one.
fn next_stamp(alloc: Global, clocks: &mut Clocks, thread: u8, key: Key) -> Result<Stamp, AllocError>
    requires thread { thread < length clocks.old.threads }
    requires few { clocks.old.events < 4000000000 }
    ensures events { OnOk result (clocks.new.events ≡ clocks.old.events + 1) }
    ensures threads { length clocks.new.threads ≡ length clocks.old.threads }
{
    match clocks.event(alloc, thread, &[key]) {
        Ok(stamp) => Ok(stamp),
        Err(_) => clocks.event(alloc, thread, &[key]),
    }
}

/// How many of the events have their clock and ticket.
fn stamped(alloc: Global, cases: &[Case]) -> Result<usize, AllocError>
    requires { length cases.now < 1000 }
{
    let mut clocks = Clocks::new(alloc, 3)?;
    let mut right = 0;
    for case in cases {
        let stamp = next_stamp(alloc, &mut clocks, case.thread % 3, case.key)?;
        let tickets = stamp.tickets.unpacked();
        if stamp.clock == case.clock && tickets.as_slice() == [case.ticket].as_slice() {
            right += 1;
        }
    }
    Ok(right)
}

#[test]
fn a_key_leads_from_one_thread_to_another(rt: HostRuntime) -> Result<(), Fail> {
    for cases in [
        [
            event_of(0, Class::Callback, 17, 1, 0),
            event_of(0, Class::Callback, 16, 2, 0),
            event_of(1, Class::Callback, 16, 3, 1),
            event_of(2, Class::Callback, 5, 1, 0),
            event_of(2, Class::Callback, 17, 2, 1),
            event_of(0, Class::Callback, 16, 4, 2),
        ],
        [
            event_of(0, Class::Mutex, 16, 1, 0),
            event_of(1, Class::User, 16, 1, 0),
            event_of(2, Class::Mutex, 16, 2, 1),
            event_of(2, Class::User, 16, 3, 1),
            event_of(1, Class::User, 16, 4, 2),
            event_of(1, Class::User, 17, 5, 0),
        ],
    ] {
        assert_eq!(rt; stamped(rt.alloc(), &cases)?, cases.len());
    }
    Ok(())
}

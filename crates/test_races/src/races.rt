//! The first race of small runs (`race_watch`).

ghost use Rattle.std.specs.Prelude.{◌≡◌, ◌+◌, ◌<◌, length, OnOk};

use memory_map::Range;
use race_watch::{Watch, WatchError};
use run_events::{Class, Key};
use std::alloc::{AllocError, Global};
use std::test::*;

/// What a thread does: it reads or writes so many bytes from an address on, or makes an event with one key.
#[derive(Clone, Copy)]
enum Step {
    Read(u8, u64, u64),
    Write(u8, u64, u64),
    Event(u8, Class),
}

/// What the watch answers to an access. Where there is no memory once, nothing has changed, so that the second answer is the
/// first one.
fn access(watch: &mut Watch, thread: u8, addr: u64, len: u64, write: bool) -> Result<(), WatchError>
    requires { thread < length watch.old.rows }
    ensures events { watch.new.events ≡ watch.old.events }
    ensures threads { length watch.new.rows ≡ length watch.old.rows }
{
    let range = Range { addr, len };
    match watch.access(thread, range, write) {
        Err(WatchError::Memory) => watch.access(thread, range, write),
        taken => taken,
    }
}

/// The same of an event with one key.
fn event(watch: &mut Watch, thread: u8, class: Class) -> Result<(), AllocError>
    requires thread { thread < length watch.old.rows }
    requires few { watch.old.events < 4000000000 }
    ensures events { OnOk result (watch.new.events ≡ watch.old.events + 1) }
    ensures threads { length watch.new.rows ≡ length watch.old.rows }
{
    let key = Key { class, value: 0 };
    match watch.event(thread, &[key]) {
        Ok(()) => Ok(()),
        Err(_) => watch.event(thread, &[key]),
    }
}

/// The first race, with the other thread and the byte.
fn first_race(alloc: Global, steps: &[Step]) -> Result<Option<(u8, u64)>, AllocError>
    requires { length steps.now < 1000 }
{
    let mut watch = Watch::new(alloc, 32)?;
    for step in steps {
        let taken = match *step {
            Step::Read(thread, addr, len) => access(&mut watch, thread % 32, addr, len, false),
            Step::Write(thread, addr, len) => access(&mut watch, thread % 32, addr, len, true),
            Step::Event(thread, class) => {
                event(&mut watch, thread % 32, class)?;
                Ok(())
            }
        };
        match taken {
            Ok(()) => {}
            Err(WatchError::Race { other, addr }) => return Ok(Some((other, addr))),
            Err(WatchError::Memory) => return Err(AllocError),
        }
    }
    Ok(None)
}

/// The first byte of the globals, after the last constant.
const N: u64 = 0x1000_0000;

/// A block of the pool.
const BLOCK: u64 = 0x3000_0000;

/// A run of a few steps, and its first race.
#[derive(Clone, Copy)]
struct Case<'a> {
    shows: &'a str,
    steps: &'a [Step],
    race: Option<(u8, u64)>,
}

#[test]
fn the_first_race_is_found(rt: HostRuntime) -> Result<(), Fail> {
    let cases = [
        Case {
            shows: "two reads don't race",
            steps: &[Step::Read(1, N, 4), Step::Read(2, N, 4)],
            race: None,
        },
        Case {
            shows: "a write races with an earlier read",
            steps: &[Step::Read(1, N, 4), Step::Write(2, N, 4)],
            race: Some((1, N)),
        },
        Case {
            shows: "neighbouring bytes don't race",
            steps: &[Step::Write(1, N, 1), Step::Write(0, N + 1, 1)],
            race: None,
        },
        Case {
            shows: "an earlier writer is named, though a later one is known to follow it",
            steps: &[
                Step::Write(1, N, 4),
                Step::Event(1, Class::Mutex),
                Step::Event(2, Class::Mutex),
                Step::Write(2, N, 4),
                Step::Write(3, N + 2, 8),
            ],
            race: Some((1, N + 2)),
        },
        Case {
            shows: "a key orders accesses",
            steps: &[
                Step::Write(1, N, 4),
                Step::Event(1, Class::Mutex),
                Step::Event(2, Class::Mutex),
                Step::Write(2, N, 4),
            ],
            race: None,
        },
        Case {
            shows: "the pool's key orders two threads that use one block",
            steps: &[
                Step::Event(1, Class::Pool),
                Step::Write(1, BLOCK, 16),
                Step::Write(1, BLOCK, 1),
                Step::Write(1, BLOCK, 16),
                Step::Event(1, Class::Pool),
                Step::Event(2, Class::Pool),
                Step::Write(2, BLOCK, 16),
            ],
            race: None,
        },
        Case {
            shows: "a block is written after the event that gives it",
            steps: &[
                Step::Write(1, BLOCK, 16),
                Step::Event(1, Class::Pool),
                Step::Write(2, BLOCK, 16),
                Step::Event(2, Class::Pool),
            ],
            race: Some((1, BLOCK)),
        },
        Case {
            shows: "constants don't race",
            steps: &[Step::Write(1, N - 8, 8), Step::Write(2, N - 8, 8)],
            race: None,
        },
        Case {
            shows: "a range of 2^63 bytes is looked through, but for constants",
            steps: &[
                Step::Read(1, 5, 0x8000_0000_0000_0000),
                Step::Write(2, N - 8, 16),
            ],
            race: Some((1, N)),
        },
        Case {
            shows: "the least byte comes before the least thread",
            steps: &[
                Step::Write(2, N + 0xf_fffc, 8),
                Step::Write(1, N + 8, 1),
                Step::Read(3, 5, 0x8000_0000_0000_0000),
            ],
            race: Some((1, N + 8)),
        },
        Case {
            shows: "a write stands beside the reads before it",
            steps: &[
                Step::Read(1, N, 8),
                Step::Write(1, N, 8),
                Step::Read(2, N + 7, 1),
            ],
            race: Some((1, N + 7)),
        },
    ];
    for case in cases {
        let race = first_race(rt.alloc(), case.steps)?;
        assert!(rt; race == case.race, "{}", case.shows);
    }
    Ok(())
}

/// The race of a write by thread 0 of one byte that the other 31 read; they make an event with one key each, and so does
/// thread 0 where it is to know of theirs.
fn after_reads(alloc: Global, known: bool) -> Result<Option<(u8, u64)>, AllocError> {
    let mut steps = Vec::new(alloc);
    for thread in 1..32 {
        steps.push(Step::Read(thread, N, 1))?;
        steps.push(Step::Event(thread, Class::Out))?;
    }
    if known {
        steps.push(Step::Event(0, Class::Out))?;
    }
    steps.push(Step::Write(0, N, 1))?;
    first_race(alloc, &steps)
}

#[test]
fn each_of_thirty_two_threads_counts(rt: HostRuntime) -> Result<(), Fail> {
    let unknown = after_reads(rt.alloc(), false)?;
    let known = after_reads(rt.alloc(), true)?;
    assert_eq!(rt; (unknown, known), (Some((1, N)), None));
    Ok(())
}

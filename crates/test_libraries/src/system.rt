//! Threads, mutexes, the schedule and answers below the cut (`system_side`), worked out by hand.

ghost use Rattle.std.specs.Prelude.{◌≡◌, ◌<◌, true, length, IfOk};
ghost use Rattle.std.specs.List.{All};
ghost use Rattle.system_side.specs.Threads.{has_not_ended};

use std::alloc::{AllocError, Global};
use std::test::Fail;
use system_side::{AnswersSoFar, Schedule, SysFile, System};

/// What a thread gets that has ended or is blocked, and so makes no call.
const NO_CALL: Option<i32> = Some(-2);

/// A call, mostly of a thread.
#[derive(Clone, Copy)]
enum Call {
    Spawn,
    Lock(u8, i32),
    Unlock(u8, i32),
    End(u8, i32),
    Join(u8, i32),
    Pick(u8),
    Wish(u64),
    Answer(u16),
}

/// A file with this schedule, in which these functions answer, one after the other.
fn file(alloc: Global, turns: &[(u8, u32)], functions: &[u16]) -> Result<SysFile, AllocError>
    ensures { IfOk result (λ f. f.schedule ≡ turns.now) }
{
    let mut answers = AnswersSoFar::new(alloc);
    for func in functions {
        answers.begin();
        answers.end(*func, 0)?;
    }
    Ok(SysFile {
        budget: 0,
        chunk: 1,
        schedule: Schedule::from_slice(alloc, turns)?,
        answers: answers.finish(),
    })
}

/// Whether the thread may step: a thread that has ended or is blocked makes no call.
fn may_step(system: &System, thread: u8) -> bool
    ensures { result ≡ true → has_not_ended system.now.threads thread ≡ true }
{
    match system.pick(thread) {
        Some(picked) => picked == thread,
        None => false,
    }
}

/// Whether a schedule of these turns can be asked.
fn can_be_asked(turns: &[(u8, u32)]) -> bool
    ensures some { result ≡ true → 0 < length turns.now }
    ensures counts { result ≡ true → All (λ item. 0 < item.1) turns.now }
{
    !turns.is_empty() && turns.iter().all(|turn| turn.1 > 0)
}

/// What a thread is answered that may step; 1 and 0 for a mutex that it gets or not, and `None` for what blocks it and for nothing.
fn answered(system: &mut System, call: Call) -> Result<Option<i32>, AllocError> {
    Ok(match call {
        Call::Spawn => Some(system.spawn()),
        Call::Pick(wish) => system.pick(wish).map(i32::from),
        Call::Wish(step) => Some(i32::from(system.wish(step))),
        Call::Answer(func) => match system.answer(func) {
            Some(place) => i32::try_from(place).ok(),
            None => None,
        },
        Call::Lock(thread, m) if may_step(system, thread) => {
            Some(i32::from(system.lock(thread, m)?))
        }
        Call::Unlock(thread, m) if may_step(system, thread) => Some(system.unlock(thread, m)),
        Call::Join(thread, t) if may_step(system, thread) => system.join(thread, t),
        Call::End(thread, value) if may_step(system, thread) => {
            system.end(thread, value);
            None
        }
        _ => NO_CALL,
    })
}

/// The place of the first call that isn't answered so.
fn first_difference(
    alloc: Global,
    turns: &[(u8, u32)],
    functions: &[u16],
    calls: &[(Call, Option<i32>)],
) -> Result<Option<usize>, AllocError> {
    let file = file(alloc, turns, functions)?;
    if !can_be_asked(turns) {
        return Ok(Some(calls.len()));
    }
    let mut system = System::new(alloc, &file)?;
    for (place, (call, wanted)) in calls.iter().enumerate() {
        if answered(&mut system, *call)? != *wanted {
            return Ok(Some(place));
        }
    }
    Ok(None)
}

const THREAD_0: [(u8, u32); 1] = [(0, 1)];

#[test]
fn a_step_wishes_for_the_thread_at_its_place_of_the_schedule(rt: HostRuntime) -> Result<(), Fail> {
    let alloc = rt.alloc();
    let turns: [(u8, u32); 3] = [(0, 2), (3, 1), (1, 3)];
    let long: [(u8, u32); 2] = [(5, u32::MAX), (6, u32::MAX)];
    let most = u64::from(u32::MAX);
    for (name, turns, calls) in [
        (
            "each step of a round",
            turns.as_slice(),
            [
                (Call::Wish(0), Some(0)),
                (Call::Wish(1), Some(0)),
                (Call::Wish(2), Some(3)),
                (Call::Wish(3), Some(1)),
                (Call::Wish(5), Some(1)),
            ],
        ),
        (
            "the schedule repeats",
            turns.as_slice(),
            [
                (Call::Wish(6), Some(0)),
                (Call::Wish(7), Some(0)),
                (Call::Wish(8), Some(3)),
                (Call::Wish(9), Some(1)),
                (Call::Wish(u64::MAX), Some(1)),
            ],
        ),
        (
            "long turns",
            long.as_slice(),
            [
                (Call::Wish(most - 1), Some(5)),
                (Call::Wish(most), Some(6)),
                (Call::Wish(2 * most - 1), Some(6)),
                (Call::Wish(2 * most), Some(5)),
                (Call::Wish(3 * most), Some(6)),
            ],
        ),
    ] {
        let difference = first_difference(alloc, turns, &[], &calls)?;
        assert_eq!(rt; difference, None, "{name}");
    }
    Ok(())
}

#[test]
fn a_thread_is_picked_from_the_wish_on(rt: HostRuntime) -> Result<(), Fail> {
    let alloc = rt.alloc();
    for (name, calls) in [
        (
            "the first that was started, from the wish on and then from 0",
            [
                (Call::Spawn, Some(1)),
                (Call::Spawn, Some(2)),
                (Call::Pick(0), Some(0)),
                (Call::Pick(2), Some(2)),
                (Call::Pick(3), Some(0)),
                (Call::Pick(31), Some(0)),
                (Call::Pick(255), Some(0)),
            ]
            .as_slice(),
        ),
        (
            "none that waits or has ended",
            [
                (Call::Spawn, Some(1)),
                (Call::Spawn, Some(2)),
                (Call::Lock(2, 5), Some(1)),
                (Call::Lock(1, 5), Some(0)),
                (Call::Pick(1), Some(2)),
                (Call::End(2, 7), None),
                (Call::Pick(1), Some(0)),
                (Call::Lock(2, 6), NO_CALL),
                (Call::Unlock(1, 5), NO_CALL),
            ]
            .as_slice(),
        ),
        (
            "a mutex of its own blocks a thread for good",
            [
                (Call::Lock(0, -7), Some(1)),
                (Call::Lock(0, -7), Some(0)),
                (Call::Pick(0), None),
                (Call::Unlock(0, -7), NO_CALL),
            ]
            .as_slice(),
        ),
    ] {
        let difference = first_difference(alloc, &THREAD_0, &[], calls)?;
        assert_eq!(rt; difference, None, "{name}");
    }
    Ok(())
}

#[test]
fn a_mutex_is_freed_by_its_holder_alone(rt: HostRuntime) -> Result<(), Fail> {
    let alloc = rt.alloc();
    for (name, calls) in [
        (
            "not by another thread, and not twice",
            [
                (Call::Spawn, Some(1)),
                (Call::Lock(0, 9), Some(1)),
                (Call::Unlock(1, 9), Some(-1)),
                (Call::Unlock(0, 8), Some(-1)),
                (Call::Unlock(0, 9), Some(0)),
                (Call::Unlock(0, 9), Some(-1)),
                (Call::Lock(1, 9), Some(1)),
            ]
            .as_slice(),
        ),
        (
            "two that wait for it are both ready then, and one gets it",
            [
                (Call::Spawn, Some(1)),
                (Call::Spawn, Some(2)),
                (Call::Lock(0, 1), Some(1)),
                (Call::Lock(1, 1), Some(0)),
                (Call::Lock(2, 1), Some(0)),
                (Call::Pick(1), Some(0)),
                (Call::Unlock(0, 1), Some(0)),
                (Call::Pick(1), Some(1)),
                (Call::Lock(2, 1), Some(1)),
                (Call::Lock(1, 1), Some(0)),
                (Call::Lock(1, 1), NO_CALL),
                (Call::Unlock(2, 1), Some(0)),
                (Call::Lock(1, 1), Some(1)),
            ]
            .as_slice(),
        ),
        (
            "it stays held where its holder ends",
            [
                (Call::Spawn, Some(1)),
                (Call::Lock(1, 3), Some(1)),
                (Call::End(1, 0), None),
                (Call::Lock(0, 3), Some(0)),
                (Call::Pick(0), None),
            ]
            .as_slice(),
        ),
    ] {
        let difference = first_difference(alloc, &THREAD_0, &[], calls)?;
        assert_eq!(rt; difference, None, "{name}");
    }
    Ok(())
}

#[test]
fn a_thread_waits_for_the_end_of_another(rt: HostRuntime) -> Result<(), Fail> {
    let alloc = rt.alloc();
    for (name, calls) in [
        (
            "not for itself, nor for one that was never started",
            [
                (Call::Spawn, Some(1)),
                (Call::Join(0, 0), Some(-1)),
                (Call::Join(1, 1), Some(-1)),
                (Call::Join(0, 2), Some(-1)),
                (Call::Join(0, -1), Some(-1)),
                (Call::Join(0, i32::MIN), Some(-1)),
                (Call::Pick(0), Some(0)),
            ]
            .as_slice(),
        ),
        (
            "each gets the result, also later and again",
            [
                (Call::Spawn, Some(1)),
                (Call::Spawn, Some(2)),
                (Call::Join(0, 1), None),
                (Call::Pick(0), Some(1)),
                (Call::End(1, 42), None),
                (Call::Pick(0), Some(0)),
                (Call::Join(0, 1), Some(42)),
                (Call::Join(0, 1), Some(42)),
                (Call::Join(2, 1), Some(42)),
            ]
            .as_slice(),
        ),
        (
            "an end makes those ready that wait for it, and no other",
            [
                (Call::Spawn, Some(1)),
                (Call::Spawn, Some(2)),
                (Call::Spawn, Some(3)),
                (Call::Spawn, Some(4)),
                (Call::Lock(3, 2), Some(1)),
                (Call::Lock(4, 2), Some(0)),
                (Call::Join(0, 2), None),
                (Call::Join(1, 2), None),
                (Call::End(2, -5), None),
                (Call::Pick(0), Some(0)),
                (Call::Pick(1), Some(1)),
                (Call::Pick(4), Some(0)),
                (Call::Join(1, 2), Some(-5)),
            ]
            .as_slice(),
        ),
    ] {
        let difference = first_difference(alloc, &THREAD_0, &[], calls)?;
        assert_eq!(rt; difference, None, "{name}");
    }
    Ok(())
}

#[test]
fn answers_come_in_the_order_of_the_file(rt: HostRuntime) -> Result<(), Fail> {
    let alloc = rt.alloc();
    let functions: [u16; 5] = [20, 17, 20, 20, 17];
    let calls: [(Call, Option<i32>); 9] = [
        (Call::Answer(20), Some(0)),
        (Call::Answer(17), Some(1)),
        (Call::Answer(20), Some(2)),
        (Call::Answer(17), Some(4)),
        (Call::Answer(20), Some(3)),
        (Call::Answer(20), None),
        (Call::Answer(17), None),
        (Call::Answer(0), None),
        (Call::Answer(65535), None),
    ];
    let difference = first_difference(alloc, &THREAD_0, &functions, &calls)?;
    assert_eq!(rt; difference, None);
    Ok(())
}

#[test]
fn the_thirty_second_thread_is_the_last(rt: HostRuntime) -> Result<(), Fail> {
    let alloc = rt.alloc();
    let mut calls = Vec::new(alloc);
    for number in 1..32 {
        calls.push((Call::Spawn, Some(number)))?;
    }
    calls.push((Call::Spawn, Some(-1)))?;
    calls.push((Call::Spawn, Some(-1)))?;
    calls.push((Call::Pick(31), Some(31)))?;
    let difference = first_difference(alloc, &THREAD_0, &[], &calls)?;
    assert_eq!(rt; difference, None);
    Ok(())
}

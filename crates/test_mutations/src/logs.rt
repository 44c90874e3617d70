//! `order` beside the reference implementation of a right log, at every change of one byte of a small log, and at every
//! prefix of a larger one and every step of one of its bytes to the value next to it.

ghost use Rattle.std.specs.Prelude.{◌≤◌, ◌<◌, length};

use log_codec::parse;
use log_reference::{first_wrong_byte, first_wrong_event};
use r2_cli::Status;
use std::alloc::{AllocError, Global};
use std::process::Abort;
use test_runs::{SUM, order_of, two_threads};

/// What `order` leaves by the reference implementation: its status, its line, and the end of what it prints.
#[derive(Drop)]
struct Outcome {
    status: Status,
    line: String,
    end: String,
}

fn refused(alloc: Global, line: String) -> Outcome {
    Outcome {
        status: Status::BadLog,
        line,
        end: String::new(alloc),
    }
}

/// What `order` leaves of these bytes.
fn expected(alloc: Global, bytes: &[u8]) -> Result<Outcome, AllocError>
    requires { length bytes.now ≤ 67108864 }
{
    if let Some(at) = first_wrong_byte(alloc, bytes)? {
        return Ok(refused(alloc, format!(in alloc; "r2: log byte {at}\n")?));
    }
    let Ok(kept) = parse(alloc, bytes) else {
        return Err(AllocError);
    };
    if let Some(error) = first_wrong_event(kept.whole(), kept.records()) {
        return Ok(refused(alloc, format!(in alloc; "r2: {error}\n")?));
    }
    if kept.whole() {
        let count = kept.records().len();
        return Ok(Outcome {
            status: Status::Done,
            line: String::new(alloc),
            end: format!(in alloc; "events {count}\n")?,
        });
    }
    Ok(Outcome {
        status: Status::Short,
        line: String::from_str(alloc, "r2: short\n")?,
        end: String::from_str(alloc, "\n")?,
    })
}

/// Stops the test where `order` leaves anything else.
fn compare(rt: &impl Abort, alloc: Global, bytes: &[u8]) -> Result<(), AllocError>
    requires { length bytes.now ≤ 67108864 }
{
    let expected = expected(alloc, bytes)?;
    let left = order_of(alloc, bytes)?;
    assert_eq!(rt; left.status, expected.status, "{bytes:?}");
    assert_eq!(rt; left.err.as_slice(), expected.line.as_bytes(), "{bytes:?}");
    assert!(rt; left.out.ends_with(expected.end.as_bytes()), "{bytes:?}");
    Ok(())
}

/// Each value at one place of the small log.
fn change(rt: &impl Abort, alloc: Global, at: usize) -> Result<(), AllocError>
    requires { at < 72 }
{
    for value in 0..=255u8 {
        let mut bytes = SUM;
        bytes[at] = value;
        compare(rt, alloc, &bytes)?;
    }
    Ok(())
}

/// The log with the byte at one place raised by 1, and lowered by 1.
fn step(rt: &impl Abort, alloc: Global, log: &[u8], at: usize) -> Result<(), AllocError>
    requires here { at < length log.now }
    requires few { length log.now ≤ 67108864 }
{
    let mut bytes = Vec::from_slice(alloc, log)?;
    bytes[at] = log[at].wrapping_add(1);
    compare(rt, alloc, &bytes)?;
    bytes[at] = log[at].wrapping_sub(1);
    compare(rt, alloc, &bytes)
}

#[test]
fn changes_of_the_first_quarter_are_found(rt: HostRuntime) -> Result<(), AllocError> {
    for at in 0..18 {
        change(&rt, rt.alloc(), at)?;
    }
    Ok(())
}

#[test]
fn changes_of_the_second_quarter_are_found(rt: HostRuntime) -> Result<(), AllocError> {
    for at in 18..36 {
        change(&rt, rt.alloc(), at)?;
    }
    Ok(())
}

#[test]
fn changes_of_the_third_quarter_are_found(rt: HostRuntime) -> Result<(), AllocError> {
    for at in 36..54 {
        change(&rt, rt.alloc(), at)?;
    }
    Ok(())
}

#[test]
fn changes_of_the_last_quarter_are_found(rt: HostRuntime) -> Result<(), AllocError> {
    for at in 54..72 {
        change(&rt, rt.alloc(), at)?;
    }
    Ok(())
}

#[test]
fn prefixes_are_read_as_far_as_they_go(rt: HostRuntime) -> Result<(), AllocError> {
    let alloc = rt.alloc();
    let log = two_threads(alloc)?;
    assert_eq!(rt; log.len(), 658);
    for length in 0..659 {
        compare(&rt, alloc, &log[..length])?;
    }
    Ok(())
}

#[test]
fn steps_of_each_byte_of_a_larger_log_are_found(rt: HostRuntime) -> Result<(), AllocError> {
    let alloc = rt.alloc();
    let log = two_threads(alloc)?;
    assert_eq!(rt; log.len(), 658);
    for at in 0..658 {
        step(&rt, alloc, &log, at)?;
    }
    Ok(())
}

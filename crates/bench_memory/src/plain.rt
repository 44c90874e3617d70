//! The same accesses over plain bytes.

ghost use Rattle.std.specs.Prelude.{◌≡◌, ◌+◌, ◌≤◌, ◌<◌, length};

use crate::pattern::{Pattern, RANGE, mixed, place, range_at};
use std::alloc::{AllocError, Global};

/// The number of the bytes at a place, the lowest first.
#[inline(always)]
fn number_at(bytes: &[u8], at: usize, width: u8) -> u64
    requires { at + 8 ≤ length bytes.now }
{
    match width {
        1 => u64::from(bytes[at]),
        2 => u64::from(u16::from_le_bytes([bytes[at], bytes[at + 1]])),
        4 => u64::from(u32::from_le_bytes([
            bytes[at],
            bytes[at + 1],
            bytes[at + 2],
            bytes[at + 3],
        ])),
        _ => u64::from_le_bytes([
            bytes[at],
            bytes[at + 1],
            bytes[at + 2],
            bytes[at + 3],
            bytes[at + 4],
            bytes[at + 5],
            bytes[at + 6],
            bytes[at + 7],
        ]),
    }
}

/// Makes the bytes at a place those of the number.
#[inline(always)]
fn put(bytes: &mut [u8], at: usize, width: u8, value: u64)
    requires { at + 8 ≤ length bytes.old }
    ensures { length bytes.new ≡ length bytes.old }
{
    let eight = value.to_le_bytes();
    match width {
        1 => bytes[at] = eight[0],
        2 => bytes[at..at + 2].copy_from_slice(&eight[..2]),
        4 => bytes[at..at + 4].copy_from_slice(&eight[..4]),
        _ => bytes[at..at + 8].copy_from_slice(&eight),
    }
}

/// The last number stored, each after a load.
pub fn turns(bytes: &mut [u8], pattern: Pattern) -> u64
    requires { length bytes.old ≡ 65544 }
{
    let mut sum = 0;
    for round in 0..pattern.rounds {
        let at = place(round) as usize;
        sum = mixed(sum, number_at(bytes, at, pattern.width));
        put(bytes, at, pattern.width, sum);
    }
    sum
}

/// What loads alone make.
pub fn loads(bytes: &[u8], pattern: Pattern) -> u64
    requires { length bytes.now ≡ 65544 }
{
    let mut sum = 0;
    for round in 0..pattern.rounds {
        sum = mixed(sum, number_at(bytes, place(round) as usize, pattern.width));
    }
    sum
}

// A range that is copied and put back one place on, after its first byte is stored; gives the byte that it begins with there.
fn copy_on(alloc: Global, bytes: &mut [u8], at: usize, first: u8) -> Result<u8, AllocError>
    requires { at + 4097 ≤ length bytes.old }
    ensures { length bytes.new ≡ length bytes.old }
{
    bytes[at] = first;
    let copied = bytes[at..at + RANGE as usize].to_vec(alloc)?;
    bytes[at + 1..at + 1 + RANGE as usize].copy_from_slice(&copied);
    Ok(bytes[at + 1])
}

/// What copies of ranges make, each put back one place on after its first byte is stored.
pub fn ranges(alloc: Global, bytes: &mut [u8], rounds: u64) -> Result<u64, AllocError>
    requires { length bytes.old ≡ 65544 }
{
    let mut sum: u64 = 0;
    for round in 0..rounds {
        let at = range_at(round) as usize;
        let first = sum.to_le_bytes()[0];
        let moved = copy_on(alloc, bytes, at, first)?;
        sum = mixed(sum, u64::from(moved));
    }
    Ok(sum)
}

//! Which accesses are made.

ghost use Rattle.std.specs.Prelude.{◌+◌, ◌≤◌};

/// How many bytes are accessed.
pub const SIZE: u64 = 65_536;

/// So many accesses of so many bytes.
#[derive(Clone, Copy)]
pub struct Pattern {
    pub width: u8,
    pub rounds: u64,
}

/// Where the access of a round is, in bytes from the first: places of 8 bytes in a scattered order.
#[inline(always)]
pub fn place(round: u64) -> u64
    ensures { result + 8 ≤ 65536 }
{
    8 * (round.wrapping_mul(5063) % 8192)
}

/// How many bytes a range has that is copied.
pub const RANGE: u64 = 4096;

/// Where the range of a round is, in bytes from the first: it begins a byte further on each time.
#[inline(always)]
pub fn range_at(round: u64) -> u64
    ensures { result + 4097 ≤ 65536 }
{
    round % (SIZE - RANGE)
}

/// What a round makes of what was made before and what it loads.
#[inline(always)]
pub fn mixed(sum: u64, value: u64) -> u64 {
    sum.wrapping_mul(31).wrapping_add(value).wrapping_add(1)
}

//! Accesses to the memory of a run.

ghost use Rattle.std.specs.Prelude.{◌+◌, ◌≤◌, ◌<◌, ◌^◌};

use crate::pattern::{Pattern, RANGE, mixed, place, range_at};
use marks::Side;
use memory_map::Range;
use space_memory::{HoldError, Spaces};
use space_memory_access::Refusal;
use std::alloc::Global;

/// The last number stored, each after a load.
pub fn turns(spaces: &mut Spaces, side: Side, base: u64, pattern: Pattern) -> Result<u64, Refusal>
    requires width { 1 ≤ pattern.width }
    requires at_most_8 { pattern.width ≤ 8 }
    requires ends { base + 65536 < 2 ^ 64 }
{
    let mut sum = 0;
    for round in 0..pattern.rounds {
        let addr = base + place(round);
        sum = mixed(sum, spaces.load(side, 0, addr, pattern.width)?);
        spaces.store(side, 0, addr, pattern.width, sum)?;
    }
    Ok(sum)
}

/// What loads alone make.
pub fn loads(spaces: &Spaces, side: Side, base: u64, pattern: Pattern) -> Result<u64, Refusal>
    requires width { 1 ≤ pattern.width }
    requires at_most_8 { pattern.width ≤ 8 }
    requires ends { base + 65536 < 2 ^ 64 }
{
    let mut sum = 0;
    for round in 0..pattern.rounds {
        let addr = base + place(round);
        sum = mixed(sum, spaces.load(side, 0, addr, pattern.width)?);
    }
    Ok(sum)
}

/// What copies of ranges make, each put back one place on after its first byte is stored.
pub fn ranges(
    alloc: Global,
    spaces: &mut Spaces,
    side: Side,
    base: u64,
    rounds: u64,
) -> Result<u64, HoldError>
    requires { base + 65536 < 2 ^ 64 }
{
    let mut sum = 0;
    for round in 0..rounds {
        let addr = base + range_at(round);
        spaces.store(side, 0, addr, 1, sum % 256)?;
        let copied = spaces.copy(alloc, side, 0, Range { addr, len: RANGE })?;
        spaces.write(side, 0, addr + 1, copied.as_slice())?;
        sum = mixed(sum, spaces.load(side, 0, addr + 1, 1)?);
    }
    Ok(sum)
}

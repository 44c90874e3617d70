//! Places in a pool.

ghost use Rattle.std.specs.Prelude.{◌≡◌, ◌%◌, ◌<◌, ◌^◌};
ghost use Rattle.replay_runs.specs.Pool.{IsPlace};
ghost use Rattle.reference_recorder_places.specs.Tests.{fits, meets, meets_any};

use marks::Range;

/// The bytes of a pool.
const POOL_SIZE: u64 = 0x10_0000;

/// Blocks begin at multiples of it.
const ALIGNMENT: u64 = 16;

/// The least place in the pool that begins at `pool` for a block of so many bytes, which meets none of these blocks; 0 where there
/// is none.
pub fn place_in(pool: u64, blocks: &[Range], size: u64) -> u64
    requires aligned { pool % 16 ≡ 0 }
    requires low { pool < 2 ^ 32 }
    ensures { IsPlace pool blocks.now size result }
{
    for step in 0..POOL_SIZE / ALIGNMENT {
        let at = pool + step * ALIGNMENT;
        if fits(pool, blocks, size, at) {
            return at;
        }
    }
    0
}

// Whether a block fits at this place, where that is one of the pool.
fn fits(pool: u64, blocks: &[Range], size: u64, at: u64) -> bool
    requires { pool < 2 ^ 32 }
    ensures { result ≡ fits pool blocks.now size at }
{
    let end = u128::from(at) + u128::from(size);
    size > 0 && end <= u128::from(pool + POOL_SIZE) && !meets_any(blocks, at, size)
}

fn meets_any(blocks: &[Range], at: u64, size: u64) -> bool
    ensures { result ≡ meets_any blocks.now at size }
{
    for block in blocks {
        if meets(*block, at, size) {
            return true;
        }
    }
    false
}

fn meets(block: Range, at: u64, size: u64) -> bool
    ensures { result ≡ meets block at size }
{
    let block_end = u128::from(block.addr) + u128::from(block.len);
    let end = u128::from(at) + u128::from(size);
    u128::from(at) < block_end && u128::from(block.addr) < end
}

// The objects that are placed before a run, and the areas that hold them.
ghost use Rattle.std.specs.Prelude.{◌≡◌, ℕ, ◌+◌, ◌<◌, ◌≤◌, All, length};
ghost use Rattle.memory_map.specs.declared.areas.TheConstants.{CONSTANTS, REPLAY_GLOBALS};
ghost use Rattle.space_memory_bytes.specs.Areas.{byte_at, extents, LiesIn};
ghost use Rattle.space_memory.specs.Objects.{IsInArea, object_range, byte_of, areas_to};

use memory_map::{
    CONSTANTS, GLOBALS_SIZE, POOL_SIZE, Place, REPLAY_GLOBALS, REPLAY_POOL, REPLAY_STACKS, Range,
    STACK_SIZE, SYSTEM_GLOBALS, SYSTEM_POOL, SYSTEM_STACKS, THREADS,
};
use space_memory_bytes::LiveBytes;

/// The areas of memory, where the constants end at an address.
pub fn areas(constants_end: u64) -> [Range; 7]
    requires { CONSTANTS.addr ≤ constants_end }
    ensures { result ≡ areas_to constants_end }
{
    let stacks = THREADS as u64 * STACK_SIZE;
    [
        Range {
            addr: CONSTANTS.addr,
            len: constants_end - CONSTANTS.addr,
        },
        Range {
            addr: REPLAY_GLOBALS,
            len: GLOBALS_SIZE,
        },
        Range {
            addr: REPLAY_STACKS,
            len: stacks,
        },
        Range {
            addr: REPLAY_POOL,
            len: POOL_SIZE,
        },
        Range {
            addr: SYSTEM_GLOBALS,
            len: GLOBALS_SIZE,
        },
        Range {
            addr: SYSTEM_STACKS,
            len: stacks,
        },
        Range {
            addr: SYSTEM_POOL,
            len: POOL_SIZE,
        },
    ]
}

/// Where the objects among the constants end: after the last of them.
pub fn end_of_constants(objects: &[Place]) -> u64
    requires { All IsInArea objects.now }
    ensures from { CONSTANTS.addr ≤ result }
    ensures to { result < REPLAY_GLOBALS }
    ensures all { All (λ o. o.addr < REPLAY_GLOBALS → o.addr + length o.init ≤ result) objects.now }
{
    let mut end = CONSTANTS.addr;
    for object in objects {
        end = end.max(end_among_constants(object));
    }
    end
}

// The address after an object, if it is among the constants; else where these begin.
fn end_among_constants(object: &Place) -> u64
    requires { IsInArea object.now }
    ensures to { result < REPLAY_GLOBALS }
    ensures end { object.now.addr < REPLAY_GLOBALS → object.now.addr + length object.now.init ≤ result }
{
    if object.addr < REPLAY_GLOBALS {
        object.addr + object.init.as_slice().len() as u64
    } else {
        CONSTANTS.addr
    }
}

/// Puts the bytes of each object where it lies.
pub fn put_objects(bytes: &mut LiveBytes, objects: &[Place])
    requires { All (λ o. LiesIn (object_range o) (extents bytes.old)) objects.now }
    ensures put { (x : ℕ) → byte_at bytes.new x ≡ byte_of objects.now x (byte_at bytes.old x) }
    ensures areas { extents bytes.new ≡ extents bytes.old }
{
    for object in objects {
        bytes.put(object.addr, object.init.as_slice());
    }
}

// The areas of memory, and the numbers that bound what lies in them.

use crate::Range;

/// How many threads a run has at most.
pub const THREADS: u8 = 32;

/// How many frames a thread has in use at once on one side at most.
pub const FRAMES: usize = 256;

/// The bytes of each area of globals.
pub const GLOBALS_SIZE: u64 = 0x10_0000;

/// The bytes of each thread's stack on one side.
pub const STACK_SIZE: u64 = 0x1_0000;

/// The bytes of each pool.
pub const POOL_SIZE: u64 = 0x10_0000;

/// Where strings and shared globals may lie. No code writes there.
pub const CONSTANTS: Range = Range {
    addr: 0x10_0000,
    len: 0xff0_0000,
};

/// What replay code may read and write.
pub const REPLAY_MEMORY: Range = Range {
    addr: 0x1000_0000,
    len: 0x3000_0000,
};

/// What system code may read and write as it likes.
pub const SYSTEM_MEMORY: Range = Range {
    addr: 0x5000_0000,
    len: 0x3000_0000,
};

/// The first byte of the globals of replay code.
pub const REPLAY_GLOBALS: u64 = 0x1000_0000;

/// The first byte of thread 0's stack on the replay side; each thread's stack is followed by the next thread's.
pub const REPLAY_STACKS: u64 = 0x2000_0000;

/// The first byte of the pool of replay code.
pub const REPLAY_POOL: u64 = 0x3000_0000;

/// The first byte of the globals of system code.
pub const SYSTEM_GLOBALS: u64 = 0x5000_0000;

/// The first byte of thread 0's stack on the system side; each thread's stack is followed by the next thread's.
pub const SYSTEM_STACKS: u64 = 0x6000_0000;

/// The first byte of the pool of system code.
pub const SYSTEM_POOL: u64 = 0x7000_0000;

//! Where the stacks of threads and the addresses of functions lie.

ghost use Rattle.std.specs.Prelude.{◌≡◌, ◌<◌};
ghost use Rattle.marks.specs.Places.{function_address, stack, thread_count};

use crate::side::Side;

/// The numbers of threads are below it.
pub fn thread_count() -> u8
    ensures { result ≡ thread_count }
{
    32
}

/// The address of the first byte of a thread's stack, above the cut or below it.
pub fn stack(side: Side, thread: u8) -> u64
    requires { thread < thread_count }
    ensures { result ≡ stack side thread }
{
    let base: u64 = match side {
        Side::Replay => 0x2000_0000,
        Side::System => 0x6000_0000,
    };
    base + thread as u64 * 0x1_0000
}

/// The value of a pointer to the function with this number.
pub fn function_address(func: u16) -> u64
    ensures { result ≡ function_address func }
{
    0x1000 + 16 * func as u64
}

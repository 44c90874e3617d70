//! Events of simulated threads, and what a log says of each.

use crate::marks::Marks;
use crate::pieces::Pieces;
use crate::words::Words;

/// How many threads a log can name: their numbers are below it.
pub const LOG_THREADS: u8 = 32;

/// The name of an event: its thread, and its place among the events of that thread, from 0.
/// It is printed as `T.I`.
#[derive(Clone, Copy, Debug, PartialEq, Eq)]
pub struct EventName {
    pub thread: u8,
    pub index: u32,
}

/// The time of an event: its logical clock (Lamport 1978), and the ticket of each of its keys in
/// the order of the keys.
#[derive(Drop)]
pub struct Stamp {
    pub clock: u32,
    pub tickets: Words,
}

/// Why a thread stopped before it ended.
#[derive(Clone, Copy)]
pub enum Reason {
    /// The run ended while the thread was above the cut.
    Halted,
    /// The thread met the fault with this number, 1 to 6.
    Fault(u8),
}

/// What a thread does where it crosses the cut, uses the pool, or stops. Arguments, results and
/// addresses are 64-bit two's complement patterns; a result of type `void` is 0.
#[derive(Drop)]
pub enum Event {
    /// Code above the cut calls the interface function with this number.
    Call {
        func: u16,
        args: Words,
    },
    /// The innermost open call returns. `outs` are the bytes that came back, one piece for each
    /// region. With `same` they and the result are those of the thread's previous return of this
    /// function, and are not repeated here: the result is 0 and there are no pieces.
    Ret {
        same: bool,
        result: u64,
        outs: Pieces,
    },
    /// Code below the cut calls back the function with this number.
    Up {
        func: u16,
        args: Words,
    },
    /// The innermost open callback returns.
    UpRet {
        result: u64,
    },
    /// A block of `size` bytes was asked for; `addr` is 0 where there was no room.
    Alloc {
        size: u64,
        addr: u64,
    },
    /// The block that begins at `addr` was given back.
    Free {
        addr: u64,
    },
    /// The thread made no further step.
    Stop {
        reason: Reason,
    },
}

/// What a log says of one event: its thread, how many steps its thread made above the cut since
/// its previous event, its logical clock (1 or more in a log of a run), and its keys.
#[derive(Drop)]
pub struct Record {
    pub thread: u8,
    pub steps: u32,
    pub clock: u32,
    pub keys: Marks,
    pub event: Event,
}

//! What the code of a thread comes to next.

use c_code::Side;

/// What the code of a thread comes to next.
#[derive(Clone, Copy)]
pub enum Next {
    /// The thread's first function has returned this.
    Ended { result: u64 },
    /// It wants this, on this side of the cut.
    Wants { side: Side, want: Want },
}

/// What the code of a thread wants. `Threads::args` has the arguments of a call, a frame or a return.
#[derive(Clone, Copy)]
pub enum Want {
    /// A loop begins a round.
    Turn,
    /// So many bytes from the address on are read.
    Load {
        addr: u64,
        width: u8,
    },
    /// The number is written to so many bytes from the address on, the lowest first; it fits in them.
    Store {
        addr: u64,
        width: u8,
        value: u64,
    },
    /// The function is entered: a frame of so many bytes is taken. `indirect` where it was called through an address, so that its
    /// mode is tested.
    Enter {
        indirect: bool,
        func: u16,
        size: u64,
    },
    /// The innermost frame of the side is given back.
    Leave,
    /// So many bytes are taken from the replay pool.
    Alloc {
        size: u64,
    },
    /// The block at the address is given back to the replay pool.
    Free {
        addr: u64,
    },
    /// Replay code calls a function of the interface: the event of the call.
    Call {
        indirect: bool,
        func: u16,
    },
    /// A function of the interface without a body, whose event of the call was made, gives its result.
    Give {
        func: u16,
    },
    /// A function of the interface, whose body has ended with the result, returns to replay code.
    Return {
        func: u16,
        result: u64,
    },
    /// System code calls the function through its address: an Up where the function may be called back, or else its frame of so
    /// many bytes.
    CallBack {
        func: u16,
        size: u64,
    },
    /// The function that was called back last has ended with the result.
    UpReturn {
        result: u64,
    },
    /// A builtin or external is called, and that is no event. `indirect` as at `Enter`.
    Step {
        indirect: bool,
        func: u16,
    },
    /// The code can't go on; the number is that of the fault's kind.
    Fault(u8),
}

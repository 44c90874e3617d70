//! Where a thread stands in the functions that it is in.

use marks::Side;

/// Where a function that was entered goes on: at an instruction, with its frame and mode.
#[derive(Clone, Copy)]
pub struct Activation {
    pub at: usize,
    /// The first byte of the frame, and its size.
    pub base: u64,
    pub size: u64,
    pub side: Side,
}

/// What waits for the result of a function.
#[derive(Clone, Copy)]
pub enum Waiting {
    /// A call that keeps the mode, or of the interface by system code.
    ForValue(Activation),
    /// A call by replay code of a function of the interface, which has a body: a return with the arguments of the call is wanted
    /// after it. They wait on top of its values, and below them its address where it was called through one.
    ForRet(Call),
    /// A call by system code that calls this function back.
    ForUpRet(Activation, u16),
    /// The system code below a call by replay code of a function of the interface, which called another one back. The
    /// arguments of the call wait as before its return.
    ForBelow(Call, u16),
    /// The end of this function, which was called back with no call open in the thread.
    ForOutside(u16),
}

/// A call of a function of the interface by replay code, whose event was made: the function, how many arguments it
/// has, whether it was called through an address, and where its caller goes on.
#[derive(Clone, Copy)]
pub struct Call {
    pub func: u16,
    pub args: u8,
    pub indirect: bool,
    pub then: Activation,
}

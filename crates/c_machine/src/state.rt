// Where a thread is.

use c_code::{Activation, Call, Waiting};
use marks::Side;

/// A function that is to be entered: its arguments lie on top of the values.
#[derive(Clone, Copy)]
pub(crate) struct Entry {
    pub(crate) side: Side,
    pub(crate) indirect: bool,
    pub(crate) func: u16,
    pub(crate) args: u8,
}

/// Where a thread is, but for the values and what waits.
#[derive(Clone, Copy)]
pub(crate) enum State {
    /// At an instruction.
    Going(Activation),
    /// At a call, whose arguments lie on top of the values, and below them its address where it is called through one; whether
    /// the event of the call was made.
    Calling(Call, bool),
    /// Before a function.
    Entering(Entry),
    /// Before the event that ends a crossing of the cut, with the result.
    Closing(u64, Waiting),
    /// Before its first function, whose arguments are the values; `None` where its address is that of none.
    Starting(Option<u16>),
    /// In no function, with the result of the last one.
    Done(u64),
    /// Nowhere, where an answer of another kind than the wanted one leads.
    Lost,
}

// What an instruction comes to.

use crate::wants::Want;
use c_code::Call;
use r2_num::IntKind;

// What becomes of the topmost values.
#[derive(Clone, Copy)]
pub(crate) enum Edit {
    Keep,
    Push(u64),
    Drop,
    // One in the place of the topmost.
    Replace(u64),
    // One in the place of the two topmost.
    Join(u64),
    // One in the place of so many.
    Give(u8, u64),
}

// What the answer to a mark does.
#[derive(Clone, Copy)]
pub(crate) enum Heard {
    // Whatever it says, the activation goes on at the place.
    Goes(Edit, usize),
    // A loaded value is converted to the kind; it takes the place of its address.
    Loads(IntKind, usize),
    // The same, above its address.
    LoadsAbove(IntKind, usize),
    // What the pool gives takes the place of so many arguments.
    Takes(u8, usize),
    // The function ends with the topmost value.
    Ends,
    // There is no way on.
    Nothing,
}

// What an instruction comes to: it makes no mark, and the activation goes on at the place; it makes this mark; or it makes a call
// that is no event of the pool.
#[derive(Clone, Copy)]
pub(crate) enum Outcome {
    Silent(Edit, usize),
    Asks(Want, Heard),
    Pends(Call),
}

// Where passing some instructions leads: the activation goes on at the place; or the instruction there makes this mark, whose answer
// does so much, or this call.
#[derive(Clone, Copy)]
pub(crate) enum Passed {
    On(usize),
    Marks(usize, Want, Heard),
    Calls(usize, Call),
}

// An instruction at a place that makes this mark, whose answer does so much.
#[derive(Clone, Copy)]
pub(crate) struct Asked {
    pub(crate) place: usize,
    pub(crate) want: Want,
    pub(crate) heard: Heard,
}

// Where a thread comes to that makes its accesses: the activation goes on at the place, or stays at the instruction there.
#[derive(Clone, Copy)]
pub(crate) enum Went {
    On(usize),
    Stays(usize),
}

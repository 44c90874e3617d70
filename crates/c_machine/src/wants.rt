//! What a thread wants next, and what it is told.

ghost use Rattle.std.specs.Prelude.{◌≡◌, ◌%◌, ◌^◌, length};
ghost use Rattle.marks.specs.Ranges.{number_of_bytes, bytes_of_number};
ghost use Rattle.c_code.specs.Values.{bytes_of};
ghost use Rattle.c_machine.specs.declared.wants.Want.TheVariants.{Load as ShownLoad, Store as ShownStore};

use crate::operators::bits_of;
use r2_num::IntKind;

/// The next mark of a thread, or its next call.
#[derive(Clone, Copy)]
pub enum Want {
    /// It is in no function: this is the result of the last one that ended, 0 before any.
    Ended { result: u64 },
    /// A loop begins a round.
    Turn,
    /// The bytes from the address on are read.
    Load { addr: u64, width: u8 },
    /// The number is written to the bytes from the address on; it is below 2 to the power of 8 times the width.
    Store { addr: u64, width: u8, value: u64 },
    /// A frame of so many bytes is taken for the function.
    Enter { func: u16, size: u64 },
    /// The frame of the innermost function is given back.
    Leave,
    /// The call of a function of the interface by replay code returns.
    Ret { func: u16, result: u64 },
    /// So many bytes are taken from the replay pool.
    Alloc { size: u64 },
    /// The block at the address is given back to the replay pool.
    Free { addr: u64 },
    /// The function is called.
    Call { func: u16 },
    /// The function that was called back has ended.
    UpRet { result: u64 },
    /// The code can't go on; the number is that of the fault's kind.
    Fault(u8),
}

/// What a thread is told of its next mark or call.
#[derive(Clone, Copy)]
pub enum Answer {
    /// The mark was made.
    Go,
    /// The value that is loaded, the address that the pool gives, or the result of the call.
    Value(u64),
    /// The address of the frame.
    Frame(u64),
}

#[inline(always)]
pub(crate) fn load_want(kind: IntKind, addr: u64) -> Want
    ensures { result ≡ ShownLoad addr (bytes_of kind) }
{
    Want::Load {
        addr,
        width: width(kind),
    }
}

#[inline(always)]
pub(crate) fn store_want(kind: IntKind, addr: u64, value: u64) -> Want
    ensures { result ≡ ShownStore addr (length (bytes_of_number (bytes_of kind) value))
        (number_of_bytes (bytes_of_number (bytes_of kind) value)) }
{
    Want::Store {
        addr,
        width: width(kind),
        value: low_bytes(kind, value),
    }
}

// The bytes of the kind.
#[inline(always)]
pub(crate) fn width(kind: IntKind) -> u8
    ensures { result ≡ bytes_of kind }
{
    match kind {
        IntKind::I8 | IntKind::U8 => 1,
        IntKind::I16 | IntKind::U16 => 2,
        IntKind::I32 | IntKind::U32 => 4,
        IntKind::I64 | IntKind::U64 => 8,
    }
}

// The number that is left where the value is stored in the bytes of the kind.
#[inline(always)]
fn low_bytes(kind: IntKind, value: u64) -> u64
    ensures { result ≡ value % 256 ^ bytes_of kind }
{
    value & bits_of(kind).all
}

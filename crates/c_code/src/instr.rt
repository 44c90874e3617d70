//! The instructions. They work on values of 64 bits, the topmost of which they take and give.

use r2_num::{IntKind, Op};

/// What an instruction puts on top.
#[derive(Clone, Copy)]
pub enum Push {
    /// A number.
    Number(u64),
    /// The address of the byte so far after the first byte of the frame.
    Local(u64),
    /// The address of a global, by its order in the source.
    Global(u32),
    /// The address of a string, by its order in the source.
    Text(u32),
}

/// What becomes of the topmost value.
#[derive(Clone, Copy)]
pub enum Change {
    /// Its value at the kind, as of an operand that is converted to it.
    Convert(IntKind),
    /// Its negative at the kind.
    Negate(IntKind),
    /// The number with each bit turned, at the kind.
    Complement(IntKind),
    /// 1 where it is 0, else 0.
    Not,
    /// 0 where it is 0, else 1.
    Truth,
    /// The address so many bytes after it.
    Offset(u64),
}

/// What becomes of the two topmost values; the left operand is below the right one.
#[derive(Clone, Copy)]
pub enum Combine {
    /// The result of the operator at the kind; faults with `Divide` or `Shift`.
    Arith(Op, IntKind),
    /// The address so many items of this size after the left operand, an address.
    Index(u64),
    /// The same with the operands the other way round.
    IndexOf(u64),
    /// How many items of this size lie from the right operand up to the left one, both addresses, towards zero.
    Distance(u64),
}

/// An instruction. A jump says how many instructions it passes. The origin of a memory access is the global whose name
/// its path begins with, by its order in the source.
#[derive(Clone, Copy)]
pub enum Instr {
    Push(Push),
    /// Loads from the topmost value, an address, and puts the value in its place.
    Load(IntKind, Option<u32>),
    /// The same, but the address stays below the value.
    LoadKeep(IntKind, Option<u32>),
    /// Stores the topmost value at the address below it, and keeps the value alone.
    Store(IntKind, Option<u32>),
    /// Stores the topmost value in the frame, so many bytes after its first byte, and drops it. The access has no origin.
    StoreLocal(IntKind, u64),
    /// Adds this number to the topmost value, at the kind, and stores the sum at the address below it. The old value
    /// is kept where the flag is set, else the sum.
    StoreStep(IntKind, u64, bool, Option<u32>),
    Change(Change),
    Combine(Combine),
    /// Where the topmost value is 0, passes instructions and keeps 0; else drops it.
    EndIfZero(usize),
    /// Where the topmost value isn't 0, passes instructions and keeps 1; else drops it.
    EndUnlessZero(usize),
    /// Drops the topmost value, and passes instructions where it was 0.
    SkipIfZero(usize),
    GoOn(usize),
    /// The start of a round of a loop.
    Turn,
    /// Goes back to the start of the next round, makes its Turn, and goes on after it, this many instructions before.
    GoBack(usize),
    /// Calls the function with so many arguments, which lie on top.
    Call(u16, u8),
    /// The same by an address that lies below the arguments, of a function of this type.
    CallPointer(u32, u8),
    Drop,
    /// Ends the function with the topmost value.
    Finish,
}

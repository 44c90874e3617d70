//! The types of values, as far as code tells them apart.

use r2_num::IntKind;

/// The type of a parameter or result. A value is the 64-bit two's complement pattern of a number; the value of `Void` is 0.
#[derive(Clone, Copy)]
pub enum Shape {
    Void,
    Int(IntKind),
    Pointer,
}

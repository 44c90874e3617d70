//! What the operators make of values of 64 bits.

ghost use Rattle.std.specs.Prelude.{◌≡◌};
ghost use Rattle.r2_num.specs.Kinds.{IsValue};
ghost use Rattle.c_code.specs.Values.{read as read_of, converted, changed, combined, arith_of, right_kind as right_kind_of, fault_of, is_value, at_zero};

use crate::instr::{Change, Combine};
use crate::shape::Shape;
use marks::FaultKind;
use r2_num::{Arith, IntKind, Op, binary, pattern, wrap};

// The number that the pattern is at the kind.
fn read(kind: IntKind, value: u64) -> i128
    ensures value { result ≡ read_of kind value }
    ensures range { IsValue kind result }
{
    wrap(kind, value as i128)
}

/// The value that is converted to the kind (C11 6.3.1.3; a signed kind wraps too).
pub fn convert(kind: IntKind, value: u64) -> u64
    ensures { result ≡ converted kind value }
{
    pattern(IntKind::U64, read(kind, value))
}

impl Shape {
    /// Whether the number is a value of the type.
    pub fn has_value(self, value: u64) -> bool
        ensures { result ≡ is_value self value }
    {
        match self {
            Shape::Void => value == 0,
            Shape::Int(kind) => convert(kind, value) == value,
            Shape::Pointer => true,
        }
    }
}

impl Change {
    /// What becomes of the value.
    pub fn apply(self, value: u64) -> u64
        ensures { result ≡ changed self value }
    {
        match self {
            Change::Convert(kind) => convert(kind, value),
            Change::Negate(kind) => pattern(IntKind::U64, wrap(kind, -read(kind, value))),
            Change::Complement(kind) => pattern(IntKind::U64, wrap(kind, -1 - read(kind, value))),
            Change::Not => is_zero(value, 1, 0),
            Change::Truth => is_zero(value, 0, 1),
            Change::Offset(by) => value.wrapping_add(by),
        }
    }
}

fn is_zero(value: u64, yes: u64, no: u64) -> u64
    ensures { result ≡ at_zero value yes no }
{
    if value == 0 { yes } else { no }
}

impl Combine {
    /// What the left and the right operand give together.
    pub fn apply(self, left: u64, right: u64) -> Result<u64, FaultKind>
        ensures { result ≡ combined self left right }
    {
        match self {
            Combine::Arith(op, kind) => arith(op, kind, left, right),
            Combine::Index(size) => Ok(left.wrapping_add(right.wrapping_mul(size))),
            Combine::IndexOf(size) => Ok(right.wrapping_add(left.wrapping_mul(size))),
            Combine::Distance(size) => arith(Op::Div, IntKind::I64, left.wrapping_sub(right), size),
        }
    }
}

// A count may be of any kind: as a signed number of 64 bits it is as far out of range.
fn right_kind(op: Op, kind: IntKind) -> IntKind
    ensures { result ≡ right_kind_of op kind }
{
    match op {
        Op::Shl | Op::Shr => IntKind::I64,
        _ => kind,
    }
}

fn fault(why: Arith) -> FaultKind
    ensures { result ≡ fault_of why }
{
    match why {
        Arith::Divide => FaultKind::Divide,
        Arith::Shift => FaultKind::Shift,
    }
}

fn arith(op: Op, kind: IntKind, left: u64, right: u64) -> Result<u64, FaultKind>
    ensures { result ≡ arith_of op kind left right }
{
    let right = read(right_kind(op, kind), right);
    match binary(op, kind, read(kind, left), right) {
        Ok(value) => Ok(pattern(IntKind::U64, value)),
        Err(why) => Err(fault(why)),
    }
}

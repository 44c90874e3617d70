//! The operators on two values of one kind.

ghost use Rattle.std.specs.Prelude.{◌≡◌, ◌↔◌, Ok, Err, ◌≤ℤ◌, IfOk, None};
ghost use Rattle.r2_num.specs.Kinds.{IsValue};
ghost use Rattle.r2_num.specs.Conversions.{wrapped};
ghost use Rattle.r2_num.specs.Operations.{binary_of, fault_of, divide_fault, shift_fault, exact as exact_of, IsRight, DividesWrong, ShiftsWrong, truth as truth_of};

use crate::conversions::{pattern, wrap};
use crate::kinds::IntKind;

/// A binary operator that takes two integers (C11 6.5.5 to 6.5.12).
#[derive(Clone, Copy)]
pub enum Op {
    Add,
    Sub,
    Mul,
    Div,
    Rem,
    Shl,
    Shr,
    And,
    Or,
    Xor,
    Eq,
    Ne,
    Lt,
    Le,
    Gt,
    Ge,
}

/// Why an operator has no result.
#[derive(Clone, Copy)]
pub enum Arith {
    /// A zero divisor, or the least signed value divided by -1.
    Divide,
    /// A count below 0 or not below the width.
    Shift,
}

fn truth(holds: bool) -> i128
    ensures { result ≡ truth_of holds }
{
    if holds { 1 } else { 0 }
}

// C11 6.5.5, 5 and 6.
fn fails_to_divide(kind: IntKind, a: i128, b: i128) -> bool
    ensures { result ≡ divide_fault kind a b }
{
    b == 0 || (a == kind.min() && b == -1)
}

// C11 6.5.7, 3.
fn fails_to_shift(kind: IntKind, count: i128) -> bool
    ensures { result ≡ shift_fault kind count }
{
    count < 0 || count >= kind.width() as i128
}

// Why the operator has no result.
fn fault(op: Op, kind: IntKind, a: i128, b: i128) -> Option<Arith>
    ensures { result ≡ fault_of op kind a b }
{
    match op {
        Op::Div | Op::Rem if fails_to_divide(kind, a, b) => Some(Arith::Divide),
        Op::Shl | Op::Shr if fails_to_shift(kind, b) => Some(Arith::Shift),
        _ => None,
    }
}

// The result before it is wrapped to the kind, or, of a product, what wraps to the same.
fn exact(op: Op, kind: IntKind, a: i128, b: i128) -> i128
    requires left { IsValue kind a }
    requires right { IsRight op kind b }
    requires defined { fault_of op kind a b ≡ None }
    ensures { wrapped kind result ≡ wrapped kind (exact_of op kind a b) }
{
    match op {
        Op::Add => a + b,
        Op::Sub => a - b,
        Op::Mul => a.wrapping_mul(b),
        Op::Div => a / b,
        Op::Rem => a % b,
        Op::Shl => a << (b as u32),
        Op::Shr => a >> (b as u32),
        Op::And => (pattern(kind, a) & pattern(kind, b)) as i128,
        Op::Or => (pattern(kind, a) | pattern(kind, b)) as i128,
        Op::Xor => (pattern(kind, a) ^ pattern(kind, b)) as i128,
        Op::Eq => truth(a == b),
        Op::Ne => truth(a != b),
        Op::Lt => truth(a < b),
        Op::Le => truth(a <= b),
        Op::Gt => truth(a > b),
        Op::Ge => truth(a >= b),
    }
}

/// The result of an operator on two values of the kind, wrapped to the kind.
///
/// For a shift `b` is a value of any kind. `>>` of a negative value rounds down, and a comparison gives 0 or 1.
/// `Divide` and `Shift` come exactly as C11 6.5.5, 5 and 6 and 6.5.7, 3 leave the result undefined.
pub fn binary(op: Op, kind: IntKind, a: i128, b: i128) -> Result<i128, Arith>
    requires left { IsValue kind a }
    requires right { IsRight op kind b }
    ensures answer { result ≡ binary_of op kind a b }
    ensures divide { (result ≡ Err Arith.Divide) ↔ DividesWrong op kind a b }
    ensures shift { (result ≡ Err Arith.Shift) ↔ ShiftsWrong op kind b }
    ensures range { IfOk result (IsValue kind) }
{
    match fault(op, kind, a, b) {
        Some(why) => Err(why),
        None => Ok(wrap(kind, exact(op, kind, a, b))),
    }
}

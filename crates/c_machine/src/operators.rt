// What the operators make of values, in words of 64 bits.

ghost use Rattle.std.specs.Prelude.{◌≡◌, ◌-◌, ◌^◌, if◌then◌else◌, pos, ◌*ℤ◌, unsigned_abs, int_lt, int_div, int_rem, option_map, Some, None};
ghost use Rattle.std.specs.Int.{int_div_euclid};
ghost use Rattle.std.specs.Result.{result_ok};
ghost use Rattle.r2_num.specs.declared.kinds.IntKind.TheVariants.{I64};
ghost use Rattle.r2_num.specs.Kinds.{width_of, least, IsValue};
ghost use Rattle.r2_num.specs.Operations.{divide_fault, shift_fault};
ghost use Rattle.c_code.specs.Values.{read, converted, changed, arith_of, combined};
ghost use Rattle.c_machine.specs.Operators.{number, written_unless};

use c_code::{Change, Combine};
use r2_num::{IntKind, Op};

// The bits of a kind, and how far its least value is below 0.
#[derive(Clone, Copy)]
pub(crate) struct Bits {
    pub(crate) all: u64,
    half: u64,
}

#[inline(always)]
pub(crate) fn bits_of(kind: IntKind) -> Bits
    ensures all { result.all ≡ 2 ^ width_of kind - 1 }
    ensures half { result.half ≡ unsigned_abs (least kind) }
{
    match kind {
        IntKind::I8 => Bits {
            all: 0xff,
            half: 0x80,
        },
        IntKind::U8 => Bits { all: 0xff, half: 0 },
        IntKind::I16 => Bits {
            all: 0xffff,
            half: 0x8000,
        },
        IntKind::U16 => Bits {
            all: 0xffff,
            half: 0,
        },
        IntKind::I32 => Bits {
            all: 0xffff_ffff,
            half: 0x8000_0000,
        },
        IntKind::U32 => Bits {
            all: 0xffff_ffff,
            half: 0,
        },
        IntKind::I64 => Bits {
            all: 0xffff_ffff_ffff_ffff,
            half: 0x8000_0000_0000_0000,
        },
        IntKind::U64 => Bits {
            all: 0xffff_ffff_ffff_ffff,
            half: 0,
        },
    }
}

// The value that is converted to the kind.
#[inline(always)]
pub(crate) fn convert(kind: IntKind, value: u64) -> u64
    ensures { result ≡ converted kind value }
{
    let bits = bits_of(kind);
    (value.wrapping_add(bits.half) & bits.all).wrapping_sub(bits.half)
}

// What becomes of the value.
#[inline(always)]
pub(crate) fn change(how: &Change, value: u64) -> u64
    ensures { result ≡ changed how.now value }
{
    match *how {
        Change::Convert(kind) => convert(kind, value),
        Change::Negate(kind) => convert(kind, 0u64.wrapping_sub(value)),
        Change::Complement(kind) => convert(kind, !value),
        Change::Not => u64::from(value == 0),
        Change::Truth => u64::from(value != 0),
        Change::Offset(by) => value.wrapping_add(by),
    }
}

// Whether the first word is below the second, both converted to the kind.
#[inline(always)]
fn is_less(kind: IntKind, left: u64, right: u64) -> bool
    ensures { result ≡ int_lt (read kind left) (read kind right) }
{
    let a = convert(kind, left);
    let b = convert(kind, right);
    if kind.is_signed() {
        a.cast_signed() < b.cast_signed()
    } else {
        a < b
    }
}

// What the operator gives, still to be converted to the kind; `None` where it faults. Sums, products and bits hang on the low bits
// alone, so their operands needn't be converted.
#[inline(always)]
fn unconverted(op: Op, kind: IntKind, left: u64, right: u64) -> Option<u64>
    ensures { option_map (converted kind) result ≡ result_ok (arith_of op kind left right) }
{
    match op {
        Op::Add => Some(left.wrapping_add(right)),
        Op::Sub => Some(left.wrapping_sub(right)),
        Op::Mul => Some(left.wrapping_mul(right)),
        Op::And => Some(left & right),
        Op::Or => Some(left | right),
        Op::Xor => Some(left ^ right),
        Op::Div => quotient(kind, convert(kind, left), convert(kind, right)),
        Op::Rem => remainder(kind, convert(kind, left), convert(kind, right)),
        Op::Shl => shifted_left(kind, convert(kind, left), right),
        Op::Shr => shifted_right(kind, convert(kind, left), right),
        Op::Eq => Some(u64::from(convert(kind, left) == convert(kind, right))),
        Op::Ne => Some(u64::from(convert(kind, left) != convert(kind, right))),
        Op::Lt => Some(u64::from(is_less(kind, left, right))),
        Op::Le => Some(u64::from(!is_less(kind, right, left))),
        Op::Gt => Some(u64::from(is_less(kind, right, left))),
        Op::Ge => Some(u64::from(!is_less(kind, left, right))),
    }
}

// Whether a division at the kind faults.
#[inline(always)]
fn divides_wrong(kind: IntKind, a: u64, b: u64) -> bool
    ensures { result ≡ divide_fault kind (number kind a) (number kind b) }
{
    if kind.is_signed() {
        let b = b.cast_signed();
        b == 0 || (b == -1 && a.wrapping_add(bits_of(kind).half) == 0)
    } else {
        b == 0
    }
}

// The left word divided by the right one, towards zero.
#[inline(always)]
fn quotient(kind: IntKind, a: u64, b: u64) -> Option<u64>
    requires { IsValue kind (number kind a) }
    ensures { result ≡ written_unless (divide_fault kind (number kind a) (number kind b))
        (int_div (number kind a) (number kind b)) }
{
    if divides_wrong(kind, a, b) {
        None
    } else if kind.is_signed() {
        Some((a.cast_signed() / b.cast_signed()).cast_unsigned())
    } else {
        Some(a / b)
    }
}

// What the division leaves, with the sign of the left word.
#[inline(always)]
fn remainder(kind: IntKind, a: u64, b: u64) -> Option<u64>
    requires { IsValue kind (number kind a) }
    ensures { result ≡ written_unless (divide_fault kind (number kind a) (number kind b))
        (int_rem (number kind a) (number kind b)) }
{
    if divides_wrong(kind, a, b) {
        None
    } else if kind.is_signed() {
        Some((a.cast_signed() % b.cast_signed()).cast_unsigned())
    } else {
        Some(a % b)
    }
}

// The count of a shift at the kind; `None` where it is out of range.
#[inline(always)]
fn count_of(kind: IntKind, right: u64) -> Option<u32>
    ensures { result ≡ (if shift_fault kind (read I64 right) then None
        else Some (unsigned_abs (read I64 right))) }
{
    if right < u64::from(kind.width()) {
        Some(right as u32)
    } else {
        None
    }
}

// The bits that leave the word are lost.
#[inline(always)]
fn shifted_left(kind: IntKind, a: u64, right: u64) -> Option<u64>
    ensures { result ≡ written_unless (shift_fault kind (read I64 right))
        (number kind a *ℤ pos (2 ^ unsigned_abs (read I64 right))) }
{
    let count = count_of(kind, right)?;
    Some(a << count)
}

// It rounds down.
#[inline(always)]
fn shifted_right(kind: IntKind, a: u64, right: u64) -> Option<u64>
    ensures { result ≡ written_unless (shift_fault kind (read I64 right))
        (int_div_euclid (number kind a) (pos (2 ^ unsigned_abs (read I64 right)))) }
{
    let count = count_of(kind, right)?;
    if kind.is_signed() {
        Some((a.cast_signed() >> count).cast_unsigned())
    } else {
        Some(a >> count)
    }
}

// The result of the operator at the kind; `None` where it faults.
#[inline(always)]
fn arith(op: Op, kind: IntKind, left: u64, right: u64) -> Option<u64>
    ensures { result ≡ result_ok (arith_of op kind left right) }
{
    let word = unconverted(op, kind, left, right)?;
    Some(convert(kind, word))
}

// What the left and the right operand give together; `None` where the operator faults. It's large, so it stands in one place.
#[inline(never)]
pub(crate) fn combine(how: &Combine, left: u64, right: u64) -> Option<u64>
    ensures { result ≡ result_ok (combined how.now left right) }
{
    match *how {
        Combine::Arith(op, kind) => arith(op, kind, left, right),
        Combine::Index(size) => Some(left.wrapping_add(right.wrapping_mul(size))),
        Combine::IndexOf(size) => Some(right.wrapping_add(left.wrapping_mul(size))),
        Combine::Distance(size) => arith(Op::Div, IntKind::I64, left.wrapping_sub(right), size),
    }
}

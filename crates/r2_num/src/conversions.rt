//! Conversions of a value to a kind, and of operands to a common kind.

ghost use Rattle.std.specs.Prelude.{◌≡◌, ◌<◌, ◌^◌};
ghost use Rattle.r2_num.specs.Kinds.{IsValue, width_of};
ghost use Rattle.r2_num.specs.Conversions.{wrapped, pattern_of, promoted, common_of};

use crate::kinds::IntKind;

/// The bits of `v` that fit the kind, in two's complement: `v` modulo 2 to the width (C11 6.2.6.2).
pub fn pattern(kind: IntKind, v: i128) -> u64
    ensures value { result ≡ pattern_of kind v }
    ensures bound { result < 2 ^ width_of kind }
{
    let mask = match kind {
        IntKind::I8 | IntKind::U8 => 0xff,
        IntKind::I16 | IntKind::U16 => 0xffff,
        IntKind::I32 | IntKind::U32 => 0xffff_ffff,
        IntKind::I64 | IntKind::U64 => 0xffff_ffff_ffff_ffff,
    };
    (v & mask) as u64
}

/// The value of the kind that equals `v` modulo 2 to the width (C11 6.3.1.3; a signed kind wraps too).
pub fn wrap(kind: IntKind, v: i128) -> i128
    ensures value { result ≡ wrapped kind v }
    ensures range { IsValue kind result }
{
    let bits = pattern(kind, v) as i128;
    match kind {
        IntKind::I8 if bits >= 0x80 => bits - 0x100,
        IntKind::I16 if bits >= 0x8000 => bits - 0x1_0000,
        IntKind::I32 if bits >= 0x8000_0000 => bits - 0x1_0000_0000,
        IntKind::I64 if bits >= 0x8000_0000_0000_0000 => bits - 0x1_0000_0000_0000_0000,
        _ => bits,
    }
}

/// The kind of an operand after the integer promotions (C11 6.3.1.1).
pub fn promote(kind: IntKind) -> IntKind
    ensures { result ≡ promoted kind }
{
    match kind {
        IntKind::I8 | IntKind::U8 | IntKind::I16 | IntKind::U16 => IntKind::I32,
        IntKind::I32 | IntKind::U32 | IntKind::I64 | IntKind::U64 => kind,
    }
}

/// The kind of the result of an operator on operands of two kinds, by the usual arithmetic conversions (C11 6.3.1.8).
pub fn common(a: IntKind, b: IntKind) -> IntKind
    ensures { result ≡ common_of a b }
{
    match (a, b) {
        (IntKind::U64, _) | (_, IntKind::U64) => IntKind::U64,
        (IntKind::I64, _) | (_, IntKind::I64) => IntKind::I64,
        (IntKind::U32, _) | (_, IntKind::U32) => IntKind::U32,
        _ => IntKind::I32,
    }
}

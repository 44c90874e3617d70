//! Numbers as text (`r2_base`), conversions worked out by hand from C11 6.3.1 (`r2_num`), and sizes of
//! regions (`stub_core`).

use r2_base::{Fault, put_dec, put_hex, read_dec};
use r2_num::{IntKind, common, pattern, promote, wrap};
use std::alloc::AllocError;
use stub_core::{Size, Term, size};

#[test]
fn decimal_numbers_are_spelled_and_read(rt: HostRuntime) -> Result<(), AllocError> {
    for (number, text) in [
        (0, "0"),
        (-1, "-1"),
        (907, "907"),
        (i128::MAX, "170141183460469231731687303715884105727"),
        (i128::MIN, "-170141183460469231731687303715884105728"),
    ] {
        let mut spelled = Vec::new(rt.alloc());
        put_dec(&mut spelled, number)?;
        let is_spelled = spelled.as_slice() == text.as_bytes();
        assert!(rt;
            is_spelled && read_dec(text.as_bytes()) == Some(number),
            "{text}"
        );
    }
    Ok(())
}

#[test]
fn what_is_no_decimal_number_is_not_read(rt: HostRuntime) {
    for text in [
        "",
        "-",
        "-0",
        "+1",
        "01",
        "1 ",
        "170141183460469231731687303715884105728",
    ] {
        assert_eq!(rt; read_dec(text.as_bytes()), None, "{text}");
    }
}

#[test]
fn hexadecimal_numbers_are_spelled(rt: HostRuntime) -> Result<(), AllocError> {
    for (number, text) in [(0, "0"), (0xab05, "ab05"), (u64::MAX, "ffffffffffffffff")] {
        let mut spelled = Vec::new(rt.alloc());
        put_hex(&mut spelled, number)?;
        assert_eq!(rt; spelled.as_slice(), text.as_bytes());
    }
    Ok(())
}

#[test]
fn values_wrap_at_the_edges_of_each_kind(rt: HostRuntime) {
    for (kind, value, wrapped, bits) in [
        (IntKind::I8, 128, -128, 0x80),
        (IntKind::I8, -129, 127, 0x7f),
        (IntKind::U8, 256, 0, 0),
        (IntKind::U8, -1, 255, 0xff),
        (IntKind::I16, 32768, -32768, 0x8000),
        (IntKind::I16, -2, -2, 0xfffe),
        (IntKind::U16, 65537, 1, 1),
        (IntKind::I32, 4294967295, -1, 0xffff_ffff),
        (IntKind::U32, -2, 4294967294, 0xffff_fffe),
        (
            IntKind::I64,
            9223372036854775808,
            -9223372036854775808,
            0x8000_0000_0000_0000,
        ),
        (
            IntKind::U64,
            -9223372036854775808,
            9223372036854775808,
            0x8000_0000_0000_0000,
        ),
        (
            IntKind::U64,
            -1,
            18446744073709551615,
            0xffff_ffff_ffff_ffff,
        ),
    ] {
        assert_eq!(rt;
            (wrap(kind, value), pattern(kind, value)),
            (wrapped, bits),
            "{value}"
        );
    }
}

#[test]
fn operands_are_promoted_and_get_a_common_kind(rt: HostRuntime) {
    for (a, b, promoted, want) in [
        (IntKind::U8, IntKind::I8, IntKind::I32, IntKind::I32),
        (IntKind::U16, IntKind::U32, IntKind::I32, IntKind::U32),
        (IntKind::I32, IntKind::U32, IntKind::I32, IntKind::U32),
        (IntKind::U32, IntKind::I64, IntKind::U32, IntKind::I64),
        (IntKind::I64, IntKind::U64, IntKind::I64, IntKind::U64),
    ] {
        assert!(rt; promote(a) == promoted && common(a, b) == want);
    }
}

#[test]
fn a_size_is_the_product_of_its_terms(rt: HostRuntime) {
    let product = Size {
        a: Term::Param(0),
        b: Some(Term::Param(1)),
    };
    for (first, second, want) in [
        (3i64, 5u64, 15),
        (-3, 5, -15),
        (i64::MIN, u64::MAX, -170141183460469231722463931679029329920),
    ] {
        let args = [i128::from(first), i128::from(second)];
        assert_eq!(rt; size(&product, &args, 0), want);
    }
}

#[test]
fn a_size_stops_at_the_greatest_number(rt: HostRuntime) {
    let square = Size {
        a: Term::Const(u64::MAX),
        b: Some(Term::Return),
    };
    assert_eq!(rt; size(&square, &[], 18446744073709551615), i128::MAX);
}

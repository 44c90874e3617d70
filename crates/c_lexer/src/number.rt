// Integer constants (C11 6.4.4.1).

ghost use Rattle.std.specs.Prelude.{◌≡◌, ◌≤◌, ◌+◌, ◌^◌, None, IfSome};
ghost use Rattle.c_lexer.specs.Numbers.{number_from, suffix_of as suffix_spelled, limit as least_too_big, typed, digits_and_suffix, based, number_of as number_spelled};

use crate::bytes::{Class, digit_of, run};
use crate::item::Fault;
use crate::token::{Kind, Suffix};

// The number that the digits spell, where 64 bits hold it.
fn value_of(base: u8, digits: &[u8]) -> Option<u64>
    requires low { 1 ≤ base }
    requires high { base ≤ 16 }
    ensures value { IfSome result (λ n. n ≡ number_from base 0 digits.now) }
    ensures too_big { result ≡ None → 2 ^ 64 ≤ number_from base 0 digits.now }
{
    let mut value: u128 = 0;
    for digit in digits {
        value = value * base as u128 + digit_of(*digit) as u128;
        if value > u64::MAX as u128 {
            return None;
        }
    }
    Some(value as u64)
}

#[tactic(auto, unfolding(crate::specs::Numbers::suffix_of))]
fn suffix_of(text: &[u8]) -> Option<Suffix>
    ensures { result ≡ suffix_spelled text.now }
{
    match text {
        b"" => Some(Suffix::Plain),
        b"u" | b"U" => Some(Suffix::U),
        b"l" | b"L" => Some(Suffix::L),
        b"ul" | b"uL" | b"Ul" | b"UL" | b"lu" | b"lU" | b"Lu" | b"LU" => Some(Suffix::UL),
        _ => None,
    }
}

// The greatest value of the widest type that such a number may have.
fn greatest(suffix: Suffix, decimal: bool) -> u64
    ensures { result + 1 ≡ least_too_big suffix decimal }
{
    match suffix {
        Suffix::Plain | Suffix::L if decimal => i64::MAX as u64,
        _ => u64::MAX,
    }
}

#[tactic(auto, unfolding(crate::specs::Numbers::based, crate::specs::Numbers::digits_and_suffix, crate::specs::Numbers::suffixed, crate::specs::Numbers::typed))]
fn based_number(base: u8, decimal: bool, text: &[u8]) -> Result<Kind, Fault>
    requires low { 1 ≤ base }
    requires high { base ≤ 16 }
    ensures { result ≡ based base decimal text.now }
{
    let count = run(Class::Digit(base), text);
    if count == 0 {
        return Err(Fault::BadByte);
    }
    let (digits, rest) = text.split_at(count);
    let suffix = suffix_of(rest).ok_or(Fault::BadByte)?;
    match value_of(base, digits) {
        Some(value) if value <= greatest(suffix, decimal) => Ok(Kind::Number {
            value,
            suffix,
            decimal,
        }),
        _ => Err(Fault::BigNumber),
    }
}

/// The number that is spelled so: hexadecimal after `0x`, octal after `0`, else decimal.
#[tactic(auto, unfolding(crate::specs::Numbers::number_of))]
pub fn number_of(text: &[u8]) -> Result<Kind, Fault>
    ensures { result ≡ number_spelled text.now }
{
    if text.starts_with(b"0x") {
        based_number(16, false, &text[2..])
    } else if text.starts_with(b"0") {
        based_number(8, false, text)
    } else {
        based_number(10, true, text)
    }
}

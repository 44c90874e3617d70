//! Numbers as text.

ghost use Rattle.std.specs.Prelude.{suc, ◌∷◌, ◌≡◌, ◌≢◌, ◌++◌, ◌<◌, ◌^◌, ℕ, ℤ, OnOk, OnErr, IfSome, IfNone, FitsSigned};
ghost use Rattle.std.specs.Fmt.{decimal, signed_decimal, digits};
ghost use Rattle.std.specs.Prelude.{false};
ghost use Rattle.std.specs.Int.{w128};

use crate::hex::write_hex;
use std::alloc::AllocError;

/// Adds the number in decimal digits, with `-` before one below 0; the digits themselves take no memory.
pub fn put_dec(to: &mut Vec<u8>, v: i128) -> Result<(), AllocError>
    ensures ok { OnOk result (to.new.items ≡ to.old.items ++ signed_decimal v) }
    ensures err { OnErr result (to.new.items ≡ to.old.items) }
{
    to.extend_from_slice(itoa::Buffer::new().format(v).as_bytes())
}

/// Adds the number in hexadecimal digits, in lower case and without leading zeros; the digits themselves take no memory.
pub fn put_hex(to: &mut Vec<u8>, v: u64) -> Result<(), AllocError>
    ensures ok { OnOk result (to.new.items ≡ to.old.items ++ digits 16 false v) }
    ensures err { OnErr result (to.new.items ≡ to.old.items) }
{
    let mut digits = [0; 64];
    let start = write_hex(v, &mut digits);
    to.extend_from_slice(&digits[start..])
}

/// The number whose decimal digits the text is, without leading zeros.
fn natural(text: &[u8]) -> Option<u128>
    ensures some { IfSome result (λ n. text.now ≡ decimal n) }
    ensures range { IfSome result (λ n. n < 2 ^ 128) }
    ensures none { IfNone result ((n : ℕ) → n < 2 ^ 128 → text.now ≢ decimal n) }
{
    let Ok(text) = std::str::from_utf8(text) else {
        return None;
    };
    let Ok(n) = text.parse::<u128>() else {
        return None;
    };
    if itoa::Buffer::new().format(n) == text {
        Some(n)
    } else {
        None
    }
}

/// The number below 0 whose digits stand after a `-`.
fn negative(digits: &[u8]) -> Option<i128>
    ensures some { IfSome result (λ v. 45 ∷ digits.now ≡ signed_decimal v) }
    ensures none { IfNone result ((n : ℕ) → n < 2 ^ 127 → digits.now ≢ decimal (suc n)) }
{
    let Some(n) = natural(digits) else {
        return None;
    };
    if n == 0 {
        return None;
    }
    if n > 1 << 127 {
        return None;
    }
    Some(-((n - 1) as i128) - 1)
}

/// The number from 0 on whose digits these are.
fn positive(digits: &[u8]) -> Option<i128>
    ensures some { IfSome result (λ v. digits.now ≡ signed_decimal v) }
    ensures none { IfNone result ((n : ℕ) → n < 2 ^ 127 → digits.now ≢ decimal n) }
{
    let Some(n) = natural(digits) else {
        return None;
    };
    if n < 1 << 127 { Some(n as i128) } else { None }
}

/// The number that the text spells in decimal digits, with `-` before one below 0. None exactly where it spells no
/// number of 128 bits so: no leading zeros, no `-0`, no `+`.
pub fn read_dec(text: &[u8]) -> Option<i128>
    ensures some { IfSome result (λ v. text.now ≡ signed_decimal v) }
    ensures none { IfNone result ((v : ℤ) → FitsSigned w128 v → text.now ≢ signed_decimal v) }
{
    match text {
        [b'-', digits @ ..] => negative(digits),
        _ => positive(text),
    }
}

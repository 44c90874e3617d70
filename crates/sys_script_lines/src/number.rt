//! Decimal numbers.

ghost use Rattle.std.specs.Prelude.{◌≡◌, ◌≤◌, ◌+◌, ◌*◌, ◌-◌, Some, None, IfSome, if◌then◌else◌};
ghost use Rattle.std.specs.Option.{option_and_then};
ghost use Rattle.sys_script_lines.specs.Numbers.{digits_from, is_digit, number_in, within};

/// The number with one digit more, where that is a digit and the number is at most `most`.
fn with_digit(number: u64, byte: u8, most: u64) -> Option<u64>
    ensures { result ≡ (if is_digit byte then within 0 most (number * 10 + (byte - 48)) else None) }
{
    if !byte.is_ascii_digit() {
        return None;
    }
    let digit = u64::from(byte - b'0');
    let number = number.checked_mul(10)?.checked_add(digit)?;
    if number <= most { Some(number) } else { None }
}

/// The number whose digits these are, where it is at most `most`; 0 where there are none.
fn digits(text: &[u8], most: u64) -> Option<u64>
    ensures { result ≡ option_and_then (within 0 most) (digits_from 0 text.now) }
{
    let mut number = 0;
    for byte in text {
        number = with_digit(number, *byte, most)?;
    }
    Some(number)
}

/// The number that the text spells in decimal digits, without a sign or leading zeros, where it is at most `most`.
fn number_up_to(text: &[u8], most: u64) -> Option<u64>
    ensures { result ≡ number_in 0 most text.now }
{
    match text {
        [] | [b'0', _, ..] => None,
        [digit] => with_digit(0, *digit, most),
        _ => digits(text, most),
    }
}

/// The same, where it is from `least` to `most`.
pub(crate) fn number(text: &[u8], least: u64, most: u64) -> Option<u64>
    ensures number { result ≡ number_in least most text.now }
    ensures least { IfSome result (λ n. least ≤ n) }
    ensures most { IfSome result (λ n. n ≤ most) }
{
    let number = number_up_to(text, most)?;
    if least <= number { Some(number) } else { None }
}

//! Hexadecimal digits, in lower case.

ghost use Rattle.std.specs.Prelude.{◌≡◌, ◌<◌, ◌≤◌, false, drop};
ghost use Rattle.std.specs.Fmt.{digit_glyph, digits};

/// The digit of a number below 16, in lower case.
#[inline]
pub fn hex_digit(n: u8) -> u8
    requires { n < 16 }
    ensures { result ≡ digit_glyph false n }
{
    if n < 10 { b'0' + n } else { b'a' - 10 + n }
}

/// Writes the digits of the number at the end of `out`, without leading zeros, and answers where they begin.
pub(crate) fn write_hex(v: u64, out: &mut [u8; 64]) -> usize
    ensures start { result ≤ 64 }
    ensures text { drop result out.new ≡ digits 16 false v }
{
    let mut start = 64;
    let mut rest = v;
    while start > 0 {
        start -= 1;
        out[start] = hex_digit((rest % 16) as u8);
        rest /= 16;
        if rest == 0 {
            break;
        }
    }
    start
}

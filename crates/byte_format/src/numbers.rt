//! Numbers of fixed width, the high byte first.

ghost use Rattle.std.specs.Prelude.{◌≡◌};
ghost use Rattle.std.specs.Int.{w16, w32, w64};
ghost use Rattle.byte_format.specs.Reading.{Gives, number_at, coded_at, low_from, some_at};

use crate::bytes::count_at;
use crate::stop::Stop;

/// A number of two bytes.
pub fn u16_at(bytes: &[u8]) -> Result<(u16, &[u8]), Stop>
    ensures { Gives (λ x. (x.0, x.1.now)) result (number_at w16 bytes.now) }
{
    if bytes.len() < 2 {
        return Err(Stop::Short);
    }
    let (prefix, rest) = bytes.split_at(2);
    Ok((u16::from_be_bytes([prefix[0], prefix[1]]), rest))
}

/// A number of four bytes.
pub fn u32_at(bytes: &[u8]) -> Result<(u32, &[u8]), Stop>
    ensures { Gives (λ x. (x.0, x.1.now)) result (number_at w32 bytes.now) }
{
    if bytes.len() < 4 {
        return Err(Stop::Short);
    }
    let (prefix, rest) = bytes.split_at(4);
    let number = u32::from_be_bytes([prefix[0], prefix[1], prefix[2], prefix[3]]);
    Ok((number, rest))
}

/// A number of eight bytes.
pub fn u64_at(bytes: &[u8]) -> Result<(u64, &[u8]), Stop>
    ensures { Gives (λ x. (x.0, x.1.now)) result (number_at w64 bytes.now) }
{
    if bytes.len() < 8 {
        return Err(Stop::Short);
    }
    let (prefix, rest) = bytes.split_at(8);
    let number = u64::from_be_bytes([
        prefix[0], prefix[1], prefix[2], prefix[3], prefix[4], prefix[5], prefix[6], prefix[7],
    ]);
    Ok((number, rest))
}

/// The low byte after a high one, of a number that is not 0.
fn low_at(high: u8, bytes: &[u8]) -> Result<(u8, &[u8]), Stop>
    ensures { Gives (λ x. (x.0, x.1.now)) result (coded_at (low_from high) bytes.now) }
{
    match bytes {
        [] => Err(Stop::Short),
        [low, rest @ ..] => {
            if high == 0 && *low == 0 {
                Err(Stop::Wrong(bytes.len()))
            } else {
                Ok((*low, rest))
            }
        }
    }
}

/// A number of two bytes that is not 0.
#[tactic(auto, unfolding(crate::specs::Reading::some_at))]
pub fn some_u16_at(bytes: &[u8]) -> Result<(u16, &[u8]), Stop>
    ensures { Gives (λ x. (x.0, x.1.now)) result (some_at bytes.now) }
{
    let (high, rest) = count_at(bytes, 255)?;
    let (low, rest) = low_at(high, rest)?;
    Ok((u16::from(high) * 256 + u16::from(low), rest))
}

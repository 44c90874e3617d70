//! Bytes that stand for something, read from the prefix.

ghost use Rattle.std.specs.Prelude.{◌≡◌};
ghost use Rattle.byte_format.specs.Reading.{Gives, chars_at, coded_at, at_most, only, flag_from, literal_at};

use crate::stop::Stop;

/// A byte that is a number up to `most`.
pub fn count_at(bytes: &[u8], most: u8) -> Result<(u8, &[u8]), Stop>
    ensures { Gives (λ x. (x.0, x.1.now)) result (coded_at (at_most most) bytes.now) }
{
    match bytes {
        [] => Err(Stop::Short),
        [count, rest @ ..] => {
            if *count <= most {
                Ok((*count, rest))
            } else {
                Err(Stop::Wrong(bytes.len()))
            }
        }
    }
}

/// A byte that is 0 or 1.
pub fn flag_at(bytes: &[u8]) -> Result<(bool, &[u8]), Stop>
    ensures { Gives (λ x. (x.0, x.1.now)) result (coded_at flag_from bytes.now) }
{
    match bytes {
        [] => Err(Stop::Short),
        [0, rest @ ..] => Ok((false, rest)),
        [1, rest @ ..] => Ok((true, rest)),
        [_, ..] => Err(Stop::Wrong(bytes.len())),
    }
}

/// This many bytes.
pub fn chars_at(bytes: &[u8], count: usize) -> Result<(&[u8], &[u8]), Stop>
    ensures { Gives (λ x. (x.0.now, x.1.now)) result (chars_at count bytes.now) }
{
    if bytes.len() < count {
        return Err(Stop::Short);
    }
    Ok(bytes.split_at(count))
}

/// The bytes after this very byte.
pub fn byte_at(expected: u8, bytes: &[u8]) -> Result<&[u8], Stop>
    ensures { Gives (λ x. (expected, x.now)) result (coded_at (only expected) bytes.now) }
{
    match bytes {
        [] => Err(Stop::Short),
        [first, rest @ ..] => {
            if *first == expected {
                Ok(rest)
            } else {
                Err(Stop::Wrong(bytes.len()))
            }
        }
    }
}

/// The bytes after these very bytes.
pub fn literal_at<'a>(expected: &[u8], bytes: &'a [u8]) -> Result<&'a [u8], Stop>
    ensures { Gives (λ x. (tt, x.now)) result (literal_at expected.now bytes.now) }
{
    let mut rest = bytes;
    for byte in expected {
        rest = byte_at(*byte, rest)?;
    }
    Ok(rest)
}

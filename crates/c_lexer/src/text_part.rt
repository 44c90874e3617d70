// What stands between the quotes of a character or a string.

ghost use Rattle.std.specs.Prelude.{◌≡◌};
ghost use Rattle.c_lexer.specs.Texts.{escaped as escaped_byte, hex_escape as hex_escape_part, escape as escape_part, is_plain as plain_test, part_at as part_seen};

use crate::bytes::{digit_of, is_digit_in};

/// What stands at a place between quotes.
#[derive(Clone, Copy)]
pub enum Part {
    /// The closing quote.
    Close,
    /// A value, and how many bytes spell it.
    Byte(u8, usize),
    /// The end of the line or of the source.
    Open,
    /// A byte that can't stand there, or a `\` that begins no escape.
    Bad,
}

#[tactic(auto, unfolding(crate::specs::Texts::escaped))]
fn escaped(letter: u8) -> Option<u8>
    ensures { result ≡ escaped_byte letter }
{
    match letter {
        b'n' => Some(b'\n'),
        b't' => Some(b'\t'),
        b'r' => Some(b'\r'),
        b'0' => Some(0),
        b'\\' | b'\'' | b'"' => Some(letter),
        _ => None,
    }
}

#[tactic(auto, unfolding(crate::specs::Texts::hex_escape, crate::specs::Bytes::is_digit_in))]
fn hex_escape(bytes: &[u8]) -> Part
    ensures { result ≡ hex_escape_part bytes.now }
{
    match bytes {
        [high, low, ..] if is_digit_in(16, *high) && is_digit_in(16, *low) => {
            Part::Byte(digit_of(*high) * 16 + digit_of(*low), 4)
        }
        _ => Part::Bad,
    }
}

#[tactic(auto, unfolding(crate::specs::Texts::escape))]
fn escape(bytes: &[u8]) -> Part
    ensures { result ≡ escape_part bytes.now }
{
    match bytes {
        [] => Part::Bad,
        [b'x', digits @ ..] => hex_escape(digits),
        [letter, ..] => match escaped(*letter) {
            Some(byte) => Part::Byte(byte, 2),
            None => Part::Bad,
        },
    }
}

#[tactic(auto, unfolding(crate::specs::Texts::is_plain))]
fn is_plain(quote: u8, byte: u8) -> bool
    ensures { result ≡ plain_test quote byte }
{
    matches!(byte, b' '..=b'~') || (quote == b'"' && byte >= 128)
}

/// What stands at the prefix of the bytes, which follow an opening quote of this kind.
#[tactic(auto, unfolding(crate::specs::Texts::part_at))]
pub fn part_at(quote: u8, bytes: &[u8]) -> Part
    ensures { result ≡ part_seen quote bytes.now }
{
    let Some((first, rest)) = bytes.split_first() else {
        return Part::Open;
    };
    if *first == quote {
        Part::Close
    } else if *first == b'\n' {
        Part::Open
    } else if *first == b'\\' {
        escape(rest)
    } else if is_plain(quote, *first) {
        Part::Byte(*first, 1)
    } else {
        Part::Bad
    }
}

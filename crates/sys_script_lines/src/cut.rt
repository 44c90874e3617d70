//! Texts with bytes that part them.

ghost use Rattle.std.specs.Prelude.{◌≡◌, ◌∷◌, ◌+◌, ◌<◌, [], length, IfSome, IfNone};
ghost use Rattle.memchr.specs.Find.{IsFirstByte, is_byte};
ghost use Rattle.sys_script_lines.specs.Parts.{cut_at, pair_of, parts};

use memchr::memchr;

/// What stands before the first `end`, and what after it; `None` where there is none.
pub(crate) fn cut(text: &[u8], end: u8) -> Option<(&[u8], &[u8])>
    ensures cut { pair_of (λ x. x.now) result ≡ cut_at end text.now }
    ensures parts { IfSome result (λ x. parts end text.now ≡ x.0.now ∷ parts end x.1.now) }
    ensures last { IfNone result (parts end text.now ≡ text.now ∷ []) }
    ensures shorter { IfSome result (λ x. length x.1.now < length text.now) }
{
    for (at, byte) in text.iter().enumerate() {
        if *byte == end {
            return Some((&text[..at], &text[at + 1..]));
        }
    }
    None
}

/// The same as `cut`, where the first `end` mostly comes second.
#[inline(always)]
pub(crate) fn cut_near(text: &[u8], end: u8) -> Option<(&[u8], &[u8])>
    ensures cut { pair_of (λ x. x.now) result ≡ cut_at end text.now }
    ensures parts { IfSome result (λ x. parts end text.now ≡ x.0.now ∷ parts end x.1.now) }
    ensures last { IfNone result (parts end text.now ≡ text.now ∷ []) }
    ensures shorter { IfSome result (λ x. length x.1.now < length text.now) }
{
    match text {
        [first, second, ..] if *first != end && *second == end => { Some((&text[..1], &text[2..])) }
        _ => cut(text, end),
    }
}

/// How long a text is in which an `end` may be far.
const FAR: usize = 32;

// A search of many bytes at a time.
#[inline(never)]
fn search(text: &[u8], end: u8) -> Option<usize>
    ensures { IsFirstByte (is_byte end) text.now result }
{
    memchr(end, text)
}

/// Where the first `end` is. There is no search where it comes first.
#[inline(always)]
#[tactic(auto, using(crate::proofs::FarEnds::far_here))]
fn far_end(text: &[u8], end: u8) -> Option<usize>
    ensures { IsFirstByte (is_byte end) text.now result }
{
    match text {
        [first, ..] if *first == end => Some(0),
        _ => search(text, end),
    }
}

/// The same as `cut`, where the first `end` may be far.
#[inline(always)]
pub(crate) fn cut_far(text: &[u8], end: u8) -> Option<(&[u8], &[u8])>
    ensures cut { pair_of (λ x. x.now) result ≡ cut_at end text.now }
    ensures parts { IfSome result (λ x. parts end text.now ≡ x.0.now ∷ parts end x.1.now) }
    ensures last { IfNone result (parts end text.now ≡ text.now ∷ []) }
    ensures shorter { IfSome result (λ x. length x.1.now < length text.now) }
{
    if text.len() < FAR {
        return cut(text, end);
    }
    match far_end(text, end) {
        Some(at) => Some((&text[..at], &text[at + 1..])),
        None => None,
    }
}

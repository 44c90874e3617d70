//! The fields of a log, each a function from the bytes to its value and the bytes after it.

ghost use Rattle.std.specs.Prelude.{◌≡◌};
ghost use Rattle.byte_format.specs.Reading.{Gives, coded_at};
ghost use Rattle.byte_format.specs.Numbers.{fixed};
ghost use Rattle.log_codec.specs.Reading.{class_from, kind_from, reason_from, mark_from, key_at, piece_at};

use crate::kind::{EventTag, Section};
use byte_format::{Stop, chars_at, u32_at, u64_at};
use run_events::{Bytes, Class, Key, KeyMark, Reason};
use std::alloc::Global;

pub fn class_at(bytes: &[u8]) -> Result<(Class, &[u8]), Stop>
    ensures { Gives (λ x. (x.0, x.1.now)) result (coded_at class_from bytes.now) }
{
    match bytes {
        [] => Err(Stop::Short),
        [1, rest @ ..] => Ok((Class::Mutex, rest)),
        [2, rest @ ..] => Ok((Class::User, rest)),
        [3, rest @ ..] => Ok((Class::Callback, rest)),
        [4, rest @ ..] => Ok((Class::Thread, rest)),
        [5, rest @ ..] => Ok((Class::Pool, rest)),
        [6, rest @ ..] => Ok((Class::Out, rest)),
        [7, rest @ ..] => Ok((Class::Async, rest)),
        [_, ..] => Err(Stop::Wrong(bytes.len())),
    }
}

pub fn kind_at(bytes: &[u8]) -> Result<(EventTag, &[u8]), Stop>
    ensures { Gives (λ x. (x.0, x.1.now)) result (coded_at kind_from bytes.now) }
{
    match bytes {
        [] => Err(Stop::Short),
        [1, rest @ ..] => Ok((EventTag::Call, rest)),
        [2, rest @ ..] => Ok((EventTag::Ret, rest)),
        [3, rest @ ..] => Ok((EventTag::Up, rest)),
        [4, rest @ ..] => Ok((EventTag::UpRet, rest)),
        [5, rest @ ..] => Ok((EventTag::Alloc, rest)),
        [6, rest @ ..] => Ok((EventTag::Free, rest)),
        [7, rest @ ..] => Ok((EventTag::Stop, rest)),
        [_, ..] => Err(Stop::Wrong(bytes.len())),
    }
}

pub fn reason_at(bytes: &[u8]) -> Result<(Reason, &[u8]), Stop>
    ensures { Gives (λ x. (x.0, x.1.now)) result (coded_at reason_from bytes.now) }
{
    match bytes {
        [] => Err(Stop::Short),
        [0, rest @ ..] => Ok((Reason::Halted, rest)),
        [fault @ 1..=6, rest @ ..] => Ok((Reason::Fault(*fault), rest)),
        [_, ..] => Err(Stop::Wrong(bytes.len())),
    }
}

/// The letter of a chunk, `C`, or of the end, `E`.
pub fn mark_at(bytes: &[u8]) -> Result<(Section, &[u8]), Stop>
    ensures { Gives (λ x. (x.0, x.1.now)) result (coded_at mark_from bytes.now) }
{
    match bytes {
        [] => Err(Stop::Short),
        [0x43, rest @ ..] => Ok((Section::Chunk, rest)),
        [0x45, rest @ ..] => Ok((Section::End, rest)),
        [_, ..] => Err(Stop::Wrong(bytes.len())),
    }
}

#[tactic(auto, unfolding(crate::specs::Reading::key_at))]
pub fn key_at(bytes: &[u8]) -> Result<(KeyMark, &[u8]), Stop>
    ensures { Gives (λ x. (x.0, x.1.now)) result (key_at fixed bytes.now) }
{
    let (class, rest) = class_at(bytes)?;
    let (value, rest) = u64_at(rest)?;
    let (ticket, rest) = u32_at(rest)?;
    let key = Key { class, value };
    Ok((KeyMark { key, ticket }, rest))
}

#[tactic(auto, unfolding(crate::specs::Reading::piece_at))]
pub fn piece_at(alloc: Global, bytes: &[u8]) -> Result<(Bytes, &[u8]), Stop>
    ensures { Gives (λ x. (x.0, x.1.now)) result (piece_at fixed bytes.now) }
{
    let (len, rest) = u32_at(bytes)?;
    let (piece, rest) = chars_at(rest, len as usize)?;
    let piece = Vec::from_slice(alloc, piece)?;
    Ok((Bytes::from(piece), rest))
}

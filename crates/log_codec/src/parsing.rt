//! The records of a log.

ghost use Rattle.std.specs.Prelude.{◌≡◌, ◌<◌, ◌^◌, ◌≤◌, ℕ, [], ◌⊎◌, length, OnOk, IfOk, IsOkUnless, IsErrOf, IsTrue, ◌↔◌};
ghost use Rattle.byte_format.specs.Reading.{Gives};
ghost use Rattle.byte_format.specs.Numbers.{fixed};
ghost use Rattle.log_codec.specs.LogText.{IsLog, BeginsLog};
ghost use Rattle.log_codec.specs.Kept.{StandInFull, AreAll, IsFirstWrong, CanBeKept};
ghost use Rattle.log_codec.specs.Reading.{AddsChunk, AddsItem, chunk_head_at};
ghost use Rattle.log_codec.specs.Parsing.{HasRead};

use crate::error::LogError;
use crate::fields::mark_at;
use crate::kept::Kept;
use crate::kind::Section;
use crate::records::records_at;
use byte_format::{Stop, count_at, literal_at, some_u16_at};
use run_events::{LOG_THREADS, Record};
use std::alloc::Global;

/// What each log begins with: the letters `R2LOG` and the version.
pub const HEAD: [u8; 6] = [0x52, 0x32, 0x4c, 0x4f, 0x47, 0x01];

#[tactic(auto, unfolding(crate::specs::Reading::chunk_head_at))]
fn chunk_head_at(bytes: &[u8]) -> Result<((u8, u16), &[u8]), Stop>
    ensures { Gives (λ x. ((x.0.0, x.0.1), x.1.now)) result (chunk_head_at fixed bytes.now) }
{
    let (thread, rest) = count_at(bytes, LOG_THREADS - 1)?;
    let (count, rest) = some_u16_at(rest)?;
    Ok(((thread, count), rest))
}

/// Adds the records of a chunk, whose letter was read, and hands on the bytes after them.
#[tactic(auto, unfolding(crate::specs::Reading::chunk_at, crate::specs::Reading::read_chunk))]
fn chunk_at<'a>(alloc: Global, bytes: &'a [u8], records: &mut Vec<Record>) -> Result<&'a [u8], Stop>
    ensures { AddsChunk fixed (λ x. x.now) records.old.items records.new.items result bytes.now }
{
    let ((thread, count), rest) = chunk_head_at(bytes)?;
    records_at(alloc, thread, count, rest, records)
}

/// Reads a chunk, and adds its records, or the end.
#[tactic(auto, unfolding(crate::specs::Reading::item_at, crate::specs::Reading::after_mark, crate::specs::Reading::read_item, crate::specs::Reading::read_after))]
fn item_at<'a>(
    alloc: Global,
    bytes: &'a [u8],
    records: &mut Vec<Record>,
) -> Result<(Section, &'a [u8]), Stop>
    requires { length records.old.items < 2 ^ 32 }
    ensures { AddsItem fixed (λ x. x.now) records.old.items records.new.items result bytes.now }
{
    let (mark, rest) = mark_at(bytes)?;
    let rest = match mark {
        Section::Chunk => chunk_at(alloc, rest, records)?,
        Section::End => {
            let total = records.len() as u32;
            literal_at(&total.to_be_bytes(), rest)?
        }
    };
    Ok((mark, rest))
}

/// Adds the records of a log, up to where the reading stops.
fn read_log(alloc: Global, bytes: &[u8], records: &mut Vec<Record>) -> Result<(), Stop>
    requires few { length bytes.now ≤ 67108864 }
    requires none_yet { records.old.items ≡ [] }
    ensures { HasRead bytes.now result records.new.items }
{
    let mut rest = literal_at(&HEAD, bytes)?;
    'items: loop {
        let (mark, after) = item_at(alloc, rest, records)?;
        match mark {
            Section::Chunk => rest = after,
            Section::End => {
                if after.is_empty() {
                    return Ok(());
                }
                return Err(Stop::Wrong(after.len()));
            }
        }
    }
}

/// The records of a log that stand in these bytes in full, also where the log is cut short.
pub fn parse(alloc: Global, bytes: &[u8]) -> Result<Kept, LogError>
    requires { length bytes.now ≤ 67108864 }
    // What is read begins a log text, and what begins one is read, but when out of memory.
    ensures begins { OnOk result (BeginsLog bytes.now) }
    ensures reads { BeginsLog bytes.now → IsOkUnless result LogError.Memory }
    ensures whole { IfOk result (λ kept. IsTrue kept.whole ↔ IsLog bytes.now) }
    ensures records { IfOk result (λ kept. StandInFull bytes.now kept.records) }
    ensures all { IfOk result (λ kept. AreAll bytes.now kept.records) }
    ensures kept { IfOk result (λ kept. CanBeKept kept.records) }
    // The byte named is the first wrong one, and the first wrong one is named, but when out of memory.
    ensures bad_byte { (n : ℕ) → IsErrOf result (LogError.BadByte n) → IsFirstWrong bytes.now n }
    ensures first_wrong { (n : ℕ) → IsFirstWrong bytes.now n → IsErrOf result (LogError.BadByte n) ⊎
        IsErrOf result LogError.Memory }
{
    let mut records = Vec::new(alloc);
    let whole = match read_log(alloc, bytes, &mut records) {
        Ok(()) => true,
        Err(Stop::Short) => false,
        Err(Stop::Wrong(left)) => return Err(LogError::BadByte((bytes.len() - left) as u64)),
        Err(Stop::Memory) => return Err(LogError::Memory),
    };
    Ok(Kept::new(records, whole))
}

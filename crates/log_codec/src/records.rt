//! Records, read from the prefix of bytes.

ghost use Rattle.std.specs.Prelude.{◌≡◌};
ghost use Rattle.byte_format.specs.Reading.{Gives, Adds, list_at, read_list};
ghost use Rattle.byte_format.specs.Numbers.{fixed};
ghost use Rattle.log_codec.specs.Reading.{ret_at, body_at, record_at};

use crate::fields::{kind_at, reason_at};
use crate::kind::EventTag;
use crate::lists::{args_at, keys_at, outs_at};
use byte_format::{Stop, flag_at, u16_at, u32_at, u64_at};
use run_events::{Event, Pieces, Record};
use std::alloc::Global;

#[tactic(auto, unfolding(crate::specs::Reading::ret_at, crate::specs::Reading::values_at))]
fn ret_at(alloc: Global, bytes: &[u8]) -> Result<(Event, &[u8]), Stop>
    ensures { Gives (λ x. (x.0, x.1.now)) result (ret_at fixed bytes.now) }
{
    let (same, rest) = flag_at(bytes)?;
    if same {
        let outs = Pieces::new();
        let event = Event::Ret {
            same,
            result: 0,
            outs,
        };
        return Ok((event, rest));
    }
    let (result, rest) = u64_at(rest)?;
    let (outs, rest) = outs_at(alloc, rest)?;
    Ok((Event::Ret { same, result, outs }, rest))
}

/// What an event of the kind has besides it.
#[tactic(auto, unfolding(crate::specs::Reading::body_at, crate::specs::Reading::call_at, crate::specs::Reading::up_at, crate::specs::Reading::upret_at, crate::specs::Reading::alloc_at, crate::specs::Reading::free_at, crate::specs::Reading::stop_at))]
fn event_at(alloc: Global, kind: EventTag, bytes: &[u8]) -> Result<(Event, &[u8]), Stop>
    ensures { Gives (λ x. (x.0, x.1.now)) result (body_at fixed kind bytes.now) }
{
    match kind {
        EventTag::Call => {
            let (func, rest) = u16_at(bytes)?;
            let (args, rest) = args_at(alloc, rest)?;
            Ok((Event::Call { func, args }, rest))
        }
        EventTag::Ret => ret_at(alloc, bytes),
        EventTag::Up => {
            let (func, rest) = u16_at(bytes)?;
            let (args, rest) = args_at(alloc, rest)?;
            Ok((Event::Up { func, args }, rest))
        }
        EventTag::UpRet => {
            let (result, rest) = u64_at(bytes)?;
            Ok((Event::UpRet { result }, rest))
        }
        EventTag::Alloc => {
            let (size, rest) = u64_at(bytes)?;
            let (addr, rest) = u64_at(rest)?;
            Ok((Event::Alloc { size, addr }, rest))
        }
        EventTag::Free => {
            let (addr, rest) = u64_at(bytes)?;
            Ok((Event::Free { addr }, rest))
        }
        EventTag::Stop => {
            let (reason, rest) = reason_at(bytes)?;
            Ok((Event::Stop { reason }, rest))
        }
    }
}

#[tactic(auto, unfolding(crate::specs::Reading::record_at))]
fn record_at(alloc: Global, thread: u8, bytes: &[u8]) -> Result<(Record, &[u8]), Stop>
    ensures { Gives (λ x. (x.0, x.1.now)) result (record_at fixed thread bytes.now) }
{
    let (kind, rest) = kind_at(bytes)?;
    let (steps, rest) = u32_at(rest)?;
    let (clock, rest) = u32_at(rest)?;
    let (keys, rest) = keys_at(alloc, rest)?;
    let (event, rest) = event_at(alloc, kind, rest)?;
    let record = Record {
        thread,
        steps,
        clock,
        keys,
        event,
    };
    Ok((record, rest))
}

/// Adds this many records of the thread, and hands on the bytes after them.
pub fn records_at<'a>(
    alloc: Global,
    thread: u8,
    count: u16,
    bytes: &'a [u8],
    records: &mut Vec<Record>,
) -> Result<&'a [u8], Stop>
    ensures { Adds (λ x. x.now) records.old.items records.new.items result
        (list_at (record_at fixed thread) count bytes.now)
        (read_list (record_at fixed thread) count bytes.now) }
{
    let mut rest = bytes;
    for _ in 0..count {
        let (record, after) = record_at(alloc, thread, rest)?;
        records.push(record)?;
        rest = after;
    }
    Ok(rest)
}

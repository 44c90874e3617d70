//! How many bytes a record has in a log, found from lengths alone: each number has a fixed width there. A return is counted
//! with its result and pieces, also where it repeats the one before.

ghost use Rattle.std.specs.Prelude.{◌≡◌, ◌+◌, ◌*◌, ◌≤◌, ◌<◌, ◌^◌, length, sum_by};
ghost use Rattle.std.specs.List.{AllByRecursion};
ghost use Rattle.log_codec.specs.LogText.{IsBody, IsPiece, body_text};
ghost use Rattle.whole_runs.specs.Records.{version};
ghost use Rattle.recorder_book.specs.Sizes.{IsInFull, IsSizeOf, full_size, in_full};

use run_events::{Bytes, Event, Pieces, Record};

/// How many bytes a record has.
pub fn record_size(entry: &Record) -> u64
    requires { IsInFull entry.now }
    ensures size { result ≡ full_size entry.now }
    ensures small { result < 2 ^ 40 }
{
    event_size(&entry.event, entry.keys.len())
}

/// How many bytes the record of an event has that has so many keys, whatever its thread, steps and clock.
pub fn event_size(event: &Event, keys: usize) -> u64
    requires keys { keys ≤ 16 }
    requires event { IsBody (in_full event.now) }
    ensures size { IsSizeOf event.now keys result }
    ensures small { result < 2 ^ 40 }
{
    // The kind, the steps, the clock and the number of keys, and 13 bytes a key.
    10 + 13 * keys as u64 + body_size(event)
}

fn body_size(event: &Event) -> u64
    requires { IsBody (in_full event.now) }
    ensures size { result ≡ length (body_text version.number (in_full event.now)) }
    ensures small { result < 2 ^ 39 }
{
    match event {
        Event::Call { func: _, args } => 3 + 8 * args.len() as u64,
        Event::Ret {
            same: _,
            result: _,
            outs,
        } => 10 + pieces_size(outs),
        Event::Up { func: _, args } => 3 + 8 * args.len() as u64,
        Event::UpRet { .. } => 8,
        Event::Alloc { .. } => 16,
        Event::Free { .. } => 8,
        Event::Stop { .. } => 1,
    }
}

/// Four bytes for the length of each piece, and its bytes.
fn pieces_size(pieces: &Pieces) -> u64
    requires few { length pieces.now ≤ 9 }
    requires each { AllByRecursion IsPiece pieces.now }
    ensures size { result ≡ sum_by (λ bytes. 4 + length bytes) pieces.now }
    ensures small { result < 2 ^ 38 }
{
    let mut size = 0;
    for piece in pieces.as_slice() {
        size += piece_size(piece);
    }
    size
}

fn piece_size(piece: &Bytes) -> u64
    requires { IsPiece piece.now }
    ensures size { result ≡ 4 + length piece.now }
    ensures small { result ≤ 4 + 2 ^ 32 }
{
    4 + piece.as_slice().len() as u64
}

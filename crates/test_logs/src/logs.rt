//! Logs, written (`log_codec`).

ghost use Rattle.std.specs.Prelude.{◌≡◌, [], ◌∷◌, IfOk};
ghost use Rattle.log_codec.specs.LogText.{IsChunk};
ghost use Rattle.log_codec.specs.Putting.{log_chunk};

use log_codec::{put_chunk, put_end, put_head};
use run_events::{Class, Event, Key, KeyMark, Marks, Record, Words};
use std::alloc::{AllocError, Global};

/// A log without events, byte by byte.
const NO_EVENTS: [u8; 11] = [0x52, 0x32, 0x4c, 0x4f, 0x47, 1, 0x45, 0, 0, 0, 0];

/// A log of two events: a callback of function 16 begins and returns 5.
const TWO_EVENTS: [u8; 72] = [
    0x52, 0x32, 0x4c, 0x4f, 0x47, 1, 0x43, 0, 0, 2, //
    3, 0, 0, 0, 0, 0, 0, 0, 1, 1, 3, 0, 0, 0, 0, 0, 0, 0, 0x10, 0, 0, 0, 0, 0, 0x10, 0, //
    4, 0, 0, 0, 4, 0, 0, 0, 2, 1, 4, 0, 0, 0, 0, 0, 0, 0, 0, 0, 0, 0, 0, 0, 0, 0, 0, 0, 0, 0, 5, //
    0x45, 0, 0, 0, 2,
];

/// An event of thread 0 with one key, whose ticket is 0.
fn event_record(steps: u32, clock: u32, key: Key, event: Event) -> Record
    ensures { result ≡ (record {
      thread = 0;
      steps = steps;
      clock = clock;
      keys = (record { key = key; ticket = 0 }) ∷ [];
      event = event;
    }) }
{
    Record {
        thread: 0,
        steps,
        clock,
        keys: Marks::one(KeyMark { key, ticket: 0 }),
        event,
    }
}

/// The two events.
fn two_events(alloc: Global) -> Result<Vec<Record>, AllocError>
    ensures { IfOk result (λ v. IsChunk (log_chunk (record { thread = 0; records = v.items }))) }
{
    let main = Key {
        class: Class::Callback,
        value: 16,
    };
    let ended = Key {
        class: Class::Thread,
        value: 0,
    };
    let args = Words::new();
    let begins = event_record(0, 1, main, Event::Up { func: 16, args });
    let returns = event_record(4, 2, ended, Event::UpRet { result: 5 });
    let mut records = Vec::new(alloc);
    records.push(begins)?;
    records.push(returns)?;
    Ok(records)
}

#[test]
fn logs_have_their_bytes(rt: HostRuntime) -> Result<(), AllocError> {
    let alloc = rt.alloc();
    let mut empty = Vec::new(alloc);
    put_head(&mut empty)?;
    put_end(&mut empty, 0)?;
    let records = two_events(alloc)?;
    let mut whole = Vec::new(alloc);
    put_head(&mut whole)?;
    put_chunk(&mut whole, 0, &records)?;
    put_end(&mut whole, 2)?;
    for (log, wanted) in [
        (empty.as_slice(), NO_EVENTS.as_slice()),
        (whole.as_slice(), TWO_EVENTS.as_slice()),
    ] {
        assert_eq!(rt; log, wanted);
    }
    Ok(())
}

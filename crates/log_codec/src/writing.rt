//! The text of a log, written part by part.

ghost use Rattle.std.specs.Prelude.{◌≡◌, ◌<◌, ◌≤◌, ◌^◌, ◌++◌, ◌∷◌, [], length, OnOk, OnErr};
ghost use Rattle.std.specs.Int.{w16, w32, w64, to_be_bytes};
ghost use Rattle.std.specs.List.{flat_map, AllByRecursion};
ghost use Rattle.byte_format.specs.Spelling.{counted};
ghost use Rattle.log_codec.specs.LogText.{Chunk, version_1, key_text, piece_text, body_text, record_text, chunk_text, head_text, end_text, kind_number, reason_number, IsPiece, IsBody, IsChunk};
ghost use Rattle.log_codec.specs.Putting.{log_event, log_chunk, CanBePut};

use crate::parsing::HEAD;
use crate::tail::Tail;
use run_events::{Bytes, Event, KeyMark, Pieces, Reason, Record, Words};
use std::alloc::AllocError;

fn put_words(out: &mut Tail, words: &[u64]) -> Result<(), AllocError>
    ensures before { out.new.before ≡ out.old.before }
    ensures added { OnOk result (out.new.added ≡ out.old.added ++ flat_map (to_be_bytes w64) words.now) }
{
    for word in words {
        out.put(&word.to_be_bytes())?;
    }
    Ok(())
}

fn put_key(out: &mut Tail, mark: &KeyMark) -> Result<(), AllocError>
    ensures before { out.new.before ≡ out.old.before }
    ensures added { OnOk result (out.new.added ≡ out.old.added ++ key_text to_be_bytes mark.now) }
{
    out.put_byte(mark.key.class.number())?;
    out.put(&mark.key.value.to_be_bytes())?;
    out.put(&mark.ticket.to_be_bytes())?;
    Ok(())
}

fn put_keys(out: &mut Tail, keys: &[KeyMark]) -> Result<(), AllocError>
    ensures before { out.new.before ≡ out.old.before }
    ensures added { OnOk result (out.new.added ≡ out.old.added ++ flat_map (key_text to_be_bytes) keys.now) }
{
    for key in keys {
        put_key(out, key)?;
    }
    Ok(())
}

fn put_piece(out: &mut Tail, piece: &Bytes) -> Result<(), AllocError>
    requires { length piece.now < 2 ^ 32 }
    ensures before { out.new.before ≡ out.old.before }
    ensures added { OnOk result (out.new.added ≡ out.old.added ++ piece_text to_be_bytes piece.now) }
{
    let piece = piece.as_slice();
    out.put(&(piece.len() as u32).to_be_bytes())?;
    out.put(piece)?;
    Ok(())
}

fn put_pieces(out: &mut Tail, pieces: &[Bytes]) -> Result<(), AllocError>
    requires { AllByRecursion IsPiece pieces.now }
    ensures before { out.new.before ≡ out.old.before }
    ensures added { OnOk result (out.new.added ≡
        out.old.added ++ flat_map (piece_text to_be_bytes) pieces.now) }
{
    for piece in pieces {
        put_piece(out, piece)?;
    }
    Ok(())
}

fn put_call(out: &mut Tail, func: u16, args: &Words) -> Result<(), AllocError>
    requires { length args.now < 256 }
    ensures before { out.new.before ≡ out.old.before }
    ensures added { OnOk result (out.new.added ≡ out.old.added ++
        (to_be_bytes w16 func ++ counted (to_be_bytes w64) args.now)) }
{
    let args = args.unpacked();
    let args = args.as_slice();
    let [high, low] = func.to_be_bytes();
    out.put(&[high, low, args.len() as u8])?;
    put_words(out, args)
}

fn put_return(out: &mut Tail, value: u64, outs: &Pieces) -> Result<(), AllocError>
    requires few { length outs.now < 256 }
    requires each { AllByRecursion IsPiece outs.now }
    ensures before { out.new.before ≡ out.old.before }
    ensures added { OnOk result (out.new.added ≡ out.old.added ++
        0 ∷ (to_be_bytes w64 value ++ counted (piece_text to_be_bytes) outs.now)) }
{
    let outs = outs.as_slice();
    let [a, b, c, d, e, f, g, h] = value.to_be_bytes();
    out.put(&[0, a, b, c, d, e, f, g, h, outs.len() as u8])?;
    put_pieces(out, outs)
}

fn put_body(out: &mut Tail, event: &Event) -> Result<(), AllocError>
    requires { IsBody (log_event event.now) }
    ensures before { out.new.before ≡ out.old.before }
    ensures added { OnOk result (out.new.added ≡ out.old.added ++ body_text to_be_bytes event.now) }
{
    match event {
        Event::Call { func, args } | Event::Up { func, args } => put_call(out, *func, args),
        Event::Ret { same, result, outs } => {
            if *same {
                out.put_byte(1)?;
                return Ok(());
            }
            put_return(out, *result, outs)
        }
        Event::UpRet { result } => out.put(&result.to_be_bytes()),
        Event::Alloc { size, addr } => {
            out.put(&size.to_be_bytes())?;
            out.put(&addr.to_be_bytes())
        }
        Event::Free { addr } => out.put(&addr.to_be_bytes()),
        Event::Stop { reason } => {
            out.put_byte(reason_number(*reason))?;
            Ok(())
        }
    }
}

fn reason_number(reason: Reason) -> u8
    ensures { result ≡ reason_number reason }
{
    match reason {
        Reason::Halted => 0,
        Reason::Fault(fault) => fault,
    }
}

fn kind_number(event: &Event) -> u8
    ensures { result ≡ kind_number event.now }
{
    match event {
        Event::Call { .. } => 1,
        Event::Ret { .. } => 2,
        Event::Up { .. } => 3,
        Event::UpRet { .. } => 4,
        Event::Alloc { .. } => 5,
        Event::Free { .. } => 6,
        Event::Stop { .. } => 7,
    }
}

/// What the text of a record begins with: its kind, its steps, its clock, and how many keys it has.
#[inline]
fn record_head(entry: &Record) -> [u8; 10]
    requires { length entry.now.keys < 256 }
    ensures { result ≡ kind_number entry.now.event ∷
        (to_be_bytes w32 entry.now.steps ++ to_be_bytes w32 entry.now.clock ++ length entry.now.keys ∷ []) }
{
    let kind = kind_number(&entry.event);
    let [a, b, c, d] = entry.steps.to_be_bytes();
    let [e, f, g, h] = entry.clock.to_be_bytes();
    let keys = entry.keys.len() as u8;
    [kind, a, b, c, d, e, f, g, h, keys]
}

fn put_record(out: &mut Tail, entry: &Record) -> Result<(), AllocError>
    requires { CanBePut entry.now }
    ensures before { out.new.before ≡ out.old.before }
    ensures added { OnOk result (out.new.added ≡ out.old.added ++ record_text to_be_bytes entry.now) }
{
    out.put(&record_head(entry))?;
    let keys = entry.keys.unpacked();
    put_keys(out, keys.as_slice())?;
    put_body(out, &entry.event)
}

fn put_records(out: &mut Tail, records: &[Record]) -> Result<(), AllocError>
    requires { AllByRecursion CanBePut records.now }
    ensures before { out.new.before ≡ out.old.before }
    ensures added { OnOk result (out.new.added ≡ out.old.added ++
        flat_map (record_text to_be_bytes) records.now) }
{
    for record in records {
        put_record(out, record)?;
    }
    Ok(())
}

/// Adds what each log begins with. Without memory nothing is added.
pub fn put_head(to: &mut Vec<u8>) -> Result<(), AllocError>
    ensures ok { OnOk result (to.new.items ≡ to.old.items ++ head_text version_1) }
    ensures err { OnErr result (to.new.items ≡ to.old.items) }
{
    to.extend_from_slice(&HEAD)
}

/// Adds the letter of a chunk, its thread, how many records it has, and the records.
fn put_whole_chunk(out: &mut Tail, thread: u8, records: &[Record]) -> Result<(), AllocError>
    requires few { length records.now < 2 ^ 16 }
    requires each { AllByRecursion CanBePut records.now }
    ensures before { out.new.before ≡ out.old.before }
    ensures added { OnOk result (out.new.added ≡ out.old.added ++
        chunk_text to_be_bytes (record { thread = thread; records = records.now })) }
{
    out.put_byte(0x43)?;
    out.put_byte(thread)?;
    out.put(&(records.len() as u16).to_be_bytes())?;
    put_records(out, records)
}

/// Adds a chunk with these records, 1 to 65,535 of the thread. A return that repeats the one before may still have its result
/// and pieces: the chunk leaves them out, and who reads it finds the result 0 and no pieces. Without memory nothing is added.
pub fn put_chunk(to: &mut Vec<u8>, thread: u8, records: &[Record]) -> Result<(), AllocError>
    requires { IsChunk (log_chunk (record { thread = thread; records = records.now })) }
    ensures ok { OnOk result (to.new.items ≡ to.old.items ++
        chunk_text version_1.number (log_chunk (record { thread = thread; records = records.now }))) }
    ensures err { OnErr result (to.new.items ≡ to.old.items) }
{
    let mut tail = Tail::of(to);
    if let Err(e) = put_whole_chunk(&mut tail, thread, records) {
        tail.cut(to);
        return Err(e);
    }
    tail.keep(to);
    Ok(())
}

/// Adds the end of a log that has this many records. Without memory nothing is added.
pub fn put_end(to: &mut Vec<u8>, total: u32) -> Result<(), AllocError>
    ensures ok { OnOk result (to.new.items ≡ to.old.items ++ end_text version_1.number total) }
    ensures err { OnErr result (to.new.items ≡ to.old.items) }
{
    let [a, b, c, d] = total.to_be_bytes();
    to.extend_from_slice(&[0x45, a, b, c, d])
}

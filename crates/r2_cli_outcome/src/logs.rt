//! The stage that reads a log, with all checks of its bytes and its order.

ghost use Rattle.std.specs.Prelude.{◌≡◌, ◌≢◌, ◌++◌, ◌≤◌, length, codes, decimal, IfOk};
ghost use Rattle.log_closure.specs.declared.error.OrderError.TheVariants.{Memory as NoOrder};
ghost use Rattle.event_texts.specs.EventTexts.{name_text};
ghost use Rattle.r2_base.specs.Seen.{OnlyReads};
ghost use Rattle.r2_cli_outcome.specs.declared.status.Status.TheVariants.{BadLog};
ghost use Rattle.r2_cli_outcome.specs.Outcome.{refusal};
ghost use Rattle.r2_cli_outcome.specs.Reading.{Sees};
ghost use Rattle.r2_cli_outcome.specs.Input.{most_log_bytes};
ghost use Rattle.r2_cli_outcome.specs.Plans.{Answers, IsEnd};
ghost use Rattle.r2_cli_outcome.specs.Log.{LogOf, log, order_words};

use crate::inputs::input;
use crate::plan::{End, refused};
use crate::status::Status;
use event_texts::put_name;
use log_closure::{Closed, OrderError, closed};
use log_codec::{LogError, parse};
use r2_base::{Files, put_dec};
use run_events::EventName;
use std::alloc::{AllocError, Global};

/// How many bytes a log may have.
const LOG_LIMIT: usize = 67_108_864;

fn byte_words(alloc: Global, at: u64) -> Result<Vec<u8>, AllocError>
    ensures { IfOk result (λ words. words.items ≡ codes "log byte " ++ decimal at) }
{
    let mut words = Vec::from_slice(alloc, b"log byte ")?;
    put_dec(&mut words, i128::from(at))?;
    Ok(words)
}

/// The end of a command that finds this byte of a log the first wrong one.
fn wrong_byte(alloc: Global, at: u64) -> End
    ensures { IsEnd (refusal BadLog (codes "log byte " ++ decimal at)) result }
{
    match byte_words(alloc, at) {
        Ok(words) => refused(alloc, Status::BadLog, &words),
        Err(_) => End::NoMemory,
    }
}

fn event_words(alloc: Global, fault: &str, name: EventName) -> Result<Vec<u8>, AllocError>
    ensures { IfOk result (λ words. words.items ≡ fault.now ++ name_text name) }
{
    let mut words = Vec::from_slice(alloc, fault.as_bytes())?;
    put_name(&mut words, name)?;
    Ok(words)
}

/// The end of a command that finds this event of a log the first wrong one.
fn wrong_event(alloc: Global, fault: &str, name: EventName) -> End
    ensures { IsEnd (refusal BadLog (fault.now ++ name_text name)) result }
{
    match event_words(alloc, fault, name) {
        Ok(words) => refused(alloc, Status::BadLog, &words),
        Err(_) => End::NoMemory,
    }
}

/// The end of a command that finds the order of a log wrong.
fn wrong_order(alloc: Global, error: OrderError) -> End
    ensures words { error ≢ NoOrder → IsEnd (refusal BadLog (order_words error)) result }
    ensures memory { error ≡ NoOrder → result ≡ End.NoMemory }
{
    match error {
        OrderError::Twice(name) => wrong_event(alloc, "log twice ", name),
        OrderError::Missing(name) => wrong_event(alloc, "log missing ", name),
        OrderError::Clock(name) => wrong_event(alloc, "log clock ", name),
        OrderError::Memory => End::NoMemory,
    }
}

/// The closed part of the log that the bytes are or begin, or the first wrong byte or event of it.
fn part_of(alloc: Global, bytes: Vec<u8>) -> Result<Closed, End>
    requires { length bytes.items ≤ most_log_bytes }
    ensures { Answers (λ part. part) (LogOf bytes.items) 0 0 result }
{
    let kept = match parse(alloc, &bytes) {
        Ok(kept) => kept,
        Err(LogError::BadByte(at)) => return Err(wrong_byte(alloc, at)),
        Err(LogError::Memory) => return Err(End::NoMemory),
    };
    drop(bytes);
    match closed(alloc, kept) {
        Ok(part) => Ok(part),
        Err(error) => Err(wrong_order(alloc, error)),
    }
}

/// The closed part of the log that the file holds: its reading, its size, its bytes and its order, in this order.
pub fn log<F: Files>(alloc: Global, files: &mut F, name: &str) -> Result<Closed, End>
    ensures only { OnlyReads (F.seen files.old) (F.seen files.new) }
    ensures answers { Answers (λ part. part) (log (Sees (F.seen files.old)) name.now)
        (F.seen files.old).read_faults (F.seen files.new).read_faults result }
{
    let bytes = input(alloc, files, name, "log", LOG_LIMIT)?;
    part_of(alloc, bytes)
}

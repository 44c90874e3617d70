//! The lines of a thread's events.

ghost use Rattle.std.specs.Prelude.{◌≡◌, ◌<◌, ◌≤◌, ◌+◌, ◌++◌, IfOk, OnOk, codes, decimal, length};
ghost use Rattle.event_texts.specs.EventTexts.{kind_word};
ghost use Rattle.call_inspector.specs.Parts.{PutsLines};
ghost use Rattle.call_inspector.specs.ThreadText.{event_line};

use crate::crossings::Crossings;
use crate::ends::ThreadEnd;
use crate::events::put_detail;
use c_code::Code;
use call_inspector_run::Records;
use event_texts::PrependBuffer;
use r2_base::put_dec;
use run_events::{Event, Record};
use std::alloc::AllocError;

/// Puts the word of the kind of an event before the text. An arm each, so that its few bytes are written at once.
#[inline(always)]
fn prepend_kind(buffer: &mut PrependBuffer, event: &Event)
    requires { length buffer.old ≤ 100 }
    ensures text { buffer.new ≡ kind_word event.now ++ buffer.old }
    ensures short { length buffer.new ≤ length buffer.old + 5 }
{
    match event {
        Event::Call { .. } => buffer.put_word("call"),
        Event::Ret { .. } => buffer.put_word("ret"),
        Event::Up { .. } => buffer.put_word("up"),
        Event::UpRet { .. } => buffer.put_word("upret"),
        Event::Alloc { .. } => buffer.put_word("alloc"),
        Event::Free { .. } => buffer.put_word("free"),
        Event::Stop { .. } => buffer.put_word("stop"),
    }
}

/// Adds the index, the clock, the steps and the word of the kind of an event, each with a space after it.
fn put_start(text: &mut Vec<u8>, index: usize, entry: &Record) -> Result<(), AllocError>
    ensures { OnOk result (text.new.items ≡ text.old.items ++
        (decimal index ++ codes " " ++ decimal entry.now.clock ++ codes " " ++ decimal entry.now.steps ++
        codes " " ++ kind_word entry.now.event ++ codes " ")) }
{
    let mut buffer = PrependBuffer::new();
    buffer.put_byte(b' ');
    prepend_kind(&mut buffer, &entry.event);
    buffer.put_byte(b' ');
    buffer.put_number(u64::from(entry.steps));
    buffer.put_byte(b' ');
    buffer.put_number(u64::from(entry.clock));
    buffer.put_byte(b' ');
    buffer.put_number(index as u64);
    text.extend_from_slice(buffer.as_slice())
}

/// Adds the line of an event, where these calls and callbacks are open.
fn put_line(
    text: &mut Vec<u8>,
    code: &Code,
    active: &Crossings,
    index: usize,
    entry: &Record,
) -> Result<(), AllocError>
    ensures { OnOk result (text.new.items ≡ text.old.items ++
        event_line code.now active.now index entry.now) }
{
    put_start(text, index, entry)?;
    put_detail(text, code, active, &entry.event)?;
    text.push(b'\n')?;
    Ok(())
}

/// What the events of a thread so far say: which calls and callbacks are open, and how the run ended.
#[derive(Drop)]
pub struct Passed {
    pub active: Crossings,
    pub end: ThreadEnd,
}

/// With so many bytes a text gets no further line.
const BYTES: usize = 65_536;

/// Adds the lines of the thread's events from one on, up to another or until the text has `BYTES`, and answers which event comes next.
/// Each event is looked at once.
pub fn put_lines(
    text: &mut Vec<u8>,
    code: &Code,
    passed: &mut Passed,
    threads: &[Records],
    records: &[Record],
    from: usize,
    to: usize,
) -> Result<usize, AllocError>
    requires some { from < to }
    requires within { to ≤ length records.now }
    ensures lines { IfOk result (λ next.
        PutsLines code.now threads.now records.now from text.old.items passed.old
        next text.new.items passed.new) }
    ensures more { IfOk result (λ next. from < next) }
    ensures within { IfOk result (λ next. next ≤ to) }
{
    for index in from..to {
        let entry = &records[index];
        put_line(text, code, &passed.active, index, entry)?;
        passed.end.pass(threads, &passed.active, &entry.event);
        passed.active.pass(&entry.event)?;
        if text.len() >= BYTES {
            return Ok(index + 1);
        }
    }
    Ok(to)
}

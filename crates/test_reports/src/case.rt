// Cases of reports.

use crate::events::Events;
use crate::memory::Memory;
use crate::words::bytes_of;
use c_code::Code;
use call_inspector::{Run, report};
use front_end::{CheckedSource, SourceError, check_source};
use run_events::Bytes;
use std::alloc::{AllocError, Global};
use test_cases::{Case, Line, Output, difference, no_form};

/// What stands after each source, so that it names the cut and has a program.
const AFTER: &str = " [cut(c)] int seam(void); int main(void) { return 0; }";

/// A source has no more bytes.
const MOST_BYTES: usize = 1_048_576;

/// The texts of a case: its source, the bytes of the globals, and the report that is wanted, with `/` for each line end.
#[derive(Drop)]
struct Texts {
    source: String,
    globals: Vec<u8>,
    wanted: String,
}

/// The source of a case.
fn source_of(alloc: Global, case: &Case<'_>) -> Result<String, AllocError> {
    let mut source = Output::new(alloc);
    for line in &case.lines {
        if line.word == "|" {
            source.put_after("\n", line.rest);
        }
    }
    source.put(AFTER);
    source.finish()
}

/// The report that a case wants.
fn wanted_of(alloc: Global, case: &Case<'_>) -> Result<String, AllocError> {
    let mut wanted = Output::new(alloc);
    for line in &case.lines {
        if line.word == ">" {
            wanted.put(line.rest);
            wanted.put("/");
        }
    }
    wanted.finish()
}

/// The bytes of the globals of a case.
fn globals_of(alloc: Global, case: &Case<'_>) -> Result<Vec<u8>, AllocError> {
    for line in &case.lines {
        if line.word == "globals" {
            let bytes = bytes_of(alloc, line.rest)?;
            return Ok(bytes.unwrap_or(Vec::new(alloc)));
        }
    }
    Ok(Vec::new(alloc))
}

/// The texts of a case.
fn texts_of(alloc: Global, case: &Case<'_>) -> Result<Texts, AllocError> {
    Ok(Texts {
        source: source_of(alloc, case)?,
        globals: globals_of(alloc, case)?,
        wanted: wanted_of(alloc, case)?,
    })
}

/// The source as the front end takes it for the cut `c`.
fn checked(alloc: Global, source: &str) -> Result<CheckedSource, SourceError> {
    if source.len() > MOST_BYTES {
        return Err(SourceError::Memory);
    }
    check_source(alloc, source.as_bytes(), b"c")
}

/// Takes what a line says of the run; false where it is of no form.
fn take_line(
    alloc: Global,
    code: &Code,
    events: &mut Events,
    memory: &mut Memory,
    line: Line<'_>,
) -> Result<bool, AllocError> {
    match line.word {
        "|" | ">" | "globals" => Ok(true),
        "thread" => Ok(events.turn_to(line.rest)),
        "enter" | "below" | "block" | "unblock" | "store" | "hold" => {
            memory.take(alloc, line.word, line.rest)
        }
        _ => events.take(alloc, code, line.word, line.rest),
    }
}

/// A report, with `/` for each line end.
fn shown(alloc: Global, report: &[u8]) -> Result<String, AllocError> {
    let mut text = Output::new(alloc);
    for byte in report {
        if *byte == b'\n' {
            text.put("/");
        } else {
            text.put_bytes(&[*byte]);
        }
    }
    text.finish()
}

/// What the report of the case's run has otherwise than is wanted, by the code.
fn difference_in(
    alloc: Global,
    case: &Case<'_>,
    code: &Code,
    texts: &Texts,
) -> Result<Option<String>, AllocError> {
    let Some(mut memory) = Memory::new(alloc, &texts.globals)? else {
        return Ok(Some(String::from_str(alloc, "too many globals")?));
    };
    let mut events = Events::new(alloc);
    for line in &case.lines {
        if !take_line(alloc, code, &mut events, &mut memory, *line)? {
            return no_form(alloc, *line);
        }
    }
    let run = Run {
        threads: events.finish(alloc)?,
        memory: memory.spaces,
        output: Bytes::new(alloc),
    };
    let text = report(alloc, &run, code)?;
    let made = shown(alloc, &text)?;
    difference(alloc, texts.wanted.as_str(), made.as_str())
}

/// What the case has otherwise than it wants: a line of the report, or a line that is of no form.
pub fn judge(alloc: Global, case: &Case<'_>) -> Result<Option<String>, AllocError> {
    let texts = texts_of(alloc, case)?;
    match checked(alloc, texts.source.as_str()) {
        Ok(source) => difference_in(alloc, case, &source.code, &texts),
        Err(SourceError::Memory) => Err(AllocError),
        Err(_) => Ok(Some(String::from_str(alloc, "the source is refused")?)),
    }
}

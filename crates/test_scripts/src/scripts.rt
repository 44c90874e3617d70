// What a system file says, as text.

use front_end::{CheckedSource, SourceError, check_source};
use hex::encode;
use run_events::Bytes;
use std::alloc::{AllocError, Global};
use sys_script::{ScriptError, read};
use system_side::{Answer, SysFile};
use test_cases::Output;

/// A source, and a system file, has no more bytes.
const MOST_BYTES: usize = 1_048_576;

/// A source has no more functions.
const MOST_FUNCTIONS: usize = 1_000;

/// Adds a piece of bytes, after a blank.
fn put_piece(alloc: Global, text: &mut Output, piece: &Bytes) -> Result<(), AllocError> {
    text.put(" ");
    if piece.as_slice().is_empty() {
        text.put("-");
        return Ok(());
    }
    let digits = encode(alloc, piece.as_slice())?;
    text.put(digits.as_str());
    Ok(())
}

/// Adds the line of an answer: the number of its function, its result as a number of 64 bits, and its pieces.
fn put_answer(alloc: Global, text: &mut Output, answer: Answer<'_>) -> Result<(), AllocError> {
    text.put("answer ");
    text.put_number(u64::from(answer.func));
    text.put(" ");
    text.put_number(answer.result);
    for piece in answer.pieces {
        put_piece(alloc, text, piece)?;
    }
    text.put("\n");
    Ok(())
}

/// The lines of a file: budget, chunk, the turns of the schedule and the answers.
fn said_by(alloc: Global, file: &SysFile) -> Result<Output, AllocError> {
    let mut text = Output::new(alloc);
    text.put("budget ");
    text.put_number(file.budget);
    text.put("\nchunk ");
    text.put_number(u64::from(file.chunk));
    text.put("\n");
    for place in 0..file.schedule.len() {
        let (thread, steps) = file.schedule.get(place);
        text.put("turn ");
        text.put_number(u64::from(thread));
        text.put(" ");
        text.put_number(u64::from(steps));
        text.put("\n");
    }
    for place in 0..file.answers.len() {
        put_answer(alloc, &mut text, file.answers.get(place))?;
    }
    Ok(text)
}

/// What the file says, or the first line that is wrong; `too long` where the file or the source exceeds a limit.
fn script_text(alloc: Global, source: &CheckedSource, script: &str) -> Result<Output, AllocError> {
    if source.program.functions().len() > MOST_FUNCTIONS || script.len() > MOST_BYTES {
        let mut text = Output::new(alloc);
        text.put("too long\n");
        return Ok(text);
    }
    match read(alloc, script.as_bytes(), &source.program, &source.interface) {
        Ok(file) => said_by(alloc, &file),
        Err(ScriptError::Line(number)) => {
            let mut text = Output::new(alloc);
            text.put("line ");
            text.put_number(u64::from(number));
            text.put("\n");
            Ok(text)
        }
        Err(ScriptError::Memory) => Err(AllocError),
    }
}

/// What the system file says for the source and the cut; how the source is wrong where it is refused.
pub fn script_of(
    alloc: Global,
    source: &str,
    cut: &str,
    script: &str,
) -> Result<String, SourceError> {
    if source.len() > MOST_BYTES {
        return Err(SourceError::Memory);
    }
    let source = check_source(alloc, source.as_bytes(), cut.as_bytes())?;
    Ok(script_text(alloc, &source, script)?.finish()?)
}

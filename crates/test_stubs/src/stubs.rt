// The stubs of a source, as text.

use front_end::{CheckedSource, SourceError, check_source};
use record_stubgen::record_stubs;
use replay_stubgen::replay_stubs;
use std::alloc::{AllocError, Global};
use stub_texts::text;
use test_cases::Output;

/// A source has no more bytes.
const MOST_BYTES: usize = 1_048_576;

/// Numbers of functions have 16 bits, and those below 16 are of builtins.
const MOST_FUNCTIONS: usize = 65_520;

/// As many builtins are in each interface. Their stubs come first.
const BUILTINS: usize = 5;

/// The text after the stubs of builtins.
fn after_builtins(text: &str) -> &str {
    let mut rest = text;
    for _ in 0..BUILTINS {
        if let Some((_, after)) = rest.split_once("end\n") {
            rest = after;
        }
    }
    rest
}

/// Adds a set's text, all of it or what stands after the stubs of builtins.
fn put_stubs(alloc: Global, both: &mut Output, all: bool, stubs: &[u8]) {
    let mut text = Output::new(alloc);
    text.put_bytes(stubs);
    both.put(if all {
        text.as_str()
    } else {
        after_builtins(text.as_str())
    });
}

/// Both sets as text, that of recording first.
fn texts(alloc: Global, source: &CheckedSource, all: bool) -> Result<Output, AllocError> {
    if source.program.functions().len() > MOST_FUNCTIONS {
        return Err(AllocError);
    }
    let mut both = Output::new(alloc);
    let record = record_stubs(alloc, &source.program, &source.interface)?;
    put_stubs(
        alloc,
        &mut both,
        all,
        &text(alloc, "record", &source.code, &record)?,
    );
    let replay = replay_stubs(alloc, &source.program, &source.interface)?;
    put_stubs(
        alloc,
        &mut both,
        all,
        &text(alloc, "replay", &source.code, &replay)?,
    );
    Ok(both)
}

/// The text of both sets of the source for the cut, with the stubs of builtins or without; how the source is wrong where it is refused.
pub fn stubs_of(alloc: Global, source: &str, cut: &str, all: bool) -> Result<String, SourceError> {
    if source.len() > MOST_BYTES {
        return Err(SourceError::Memory);
    }
    let source = check_source(alloc, source.as_bytes(), cut.as_bytes())?;
    Ok(texts(alloc, &source, all)?.finish()?)
}

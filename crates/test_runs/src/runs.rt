//! Runs of the program.

use crate::outside::{Faults, Named, files_of, keep_file, sink_of};
use r2_base::MemFiles;
use r2_cli::{Status, run};
use std::alloc::{AllocError, Global};

/// How many calls are tried to find the first write of a run.
const MOST_CALLS: usize = 1_000_000;

/// What a run leaves: its status, and the texts on standard output and standard error.
#[derive(Drop)]
pub struct Left {
    pub status: Status,
    pub out: Vec<u8>,
    pub err: Vec<u8>,
}

/// Runs the program with these words over these files.
fn run_over(
    alloc: Global,
    words: &[String],
    files: &mut MemFiles,
    faults: &Faults,
) -> Result<Left, AllocError> {
    let mut out = sink_of(alloc, &faults.out)?;
    let mut err = sink_of(alloc, &faults.err)?;
    let status = run(alloc, words, files, &mut out, &mut err);
    Ok(Left {
        status,
        out: Vec::from_slice(alloc, out.bytes())?,
        err: Vec::from_slice(alloc, err.bytes())?,
    })
}

/// How many calls on the files come before the first write, if there is one. A run reads before it writes.
fn first_write(
    alloc: Global,
    words: &[String],
    named: &Named,
    faults: &Faults,
) -> Result<Option<u64>, AllocError> {
    for call in 0..MOST_CALLS {
        let mut files = files_of(alloc, named, faults.at_once, vec![in alloc; call as u64]?)?;
        let _left = run_over(alloc, words, &mut files, faults)?;
        if files.write_faults() > 0 {
            return Ok(Some(call as u64));
        }
        if files.read_faults() == 0 {
            return Ok(None);
        }
    }
    Ok(None)
}

/// The numbers of the calls on the files that fail, among all of them.
fn failing(
    alloc: Global,
    words: &[String],
    named: &Named,
    faults: &Faults,
) -> Result<Vec<u64>, AllocError> {
    let mut fail = Vec::from_slice(alloc, &faults.reads)?;
    if faults.writes.is_empty() {
        return Ok(fail);
    }
    if let Some(first) = first_write(alloc, words, named, faults)? {
        for write in &faults.writes {
            fail.push(first.saturating_add(*write))?;
        }
    }
    Ok(fail)
}

/// Runs the program with these words over these files, which then hold what the run leaves.
pub fn run_words(
    alloc: Global,
    words: &[String],
    named: &mut Named,
    faults: &Faults,
) -> Result<Left, AllocError> {
    let fail = failing(alloc, words, named, faults)?;
    let mut files = files_of(alloc, named, faults.at_once, fail)?;
    let left = run_over(alloc, words, &mut files, faults)?;
    for word in words {
        keep_file(alloc, named, &files, word.as_str())?;
    }
    Ok(left)
}

/// Runs the program with these words where `a` holds these bytes.
fn left_of(alloc: Global, words: &[&str], bytes: &[u8]) -> Result<Left, AllocError> {
    let mut line = Vec::new(alloc);
    for word in words {
        line.push(String::from_str(alloc, word)?)?;
    }
    let mut named = Named::new(alloc);
    named.insert(
        String::from_str(alloc, "a")?,
        Vec::from_slice(alloc, bytes)?,
    )?;
    run_words(alloc, &line, &mut named, &Faults::none(alloc))
}

/// Runs `order a` where `a` holds these bytes.
pub fn order_of(alloc: Global, bytes: &[u8]) -> Result<Left, AllocError> {
    left_of(alloc, &["order", "a"], bytes)
}

/// Runs `check a top` where `a` holds these bytes.
pub fn check_of(alloc: Global, bytes: &[u8]) -> Result<Left, AllocError> {
    check_cut(alloc, bytes, "top")
}

/// Runs `check a CUT` where `a` holds these bytes.
pub fn check_cut(alloc: Global, bytes: &[u8], cut: &str) -> Result<Left, AllocError> {
    left_of(alloc, &["check", "a", cut], bytes)
}

/// The first bytes, at most so many.
pub fn prefix(bytes: &[u8], length: usize) -> &[u8] {
    &bytes[..length.min(bytes.len())]
}

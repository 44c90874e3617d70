// What two recordings have otherwise.

use c_code::Code;
use call_inspector::report;
use recorder::Recorded;
use recording_texts::{ending_line, status_of};
use std::alloc::{AllocError, Global};

/// What the two texts are, where they differ.
fn difference_in(
    alloc: Global,
    what: &str,
    fast: &[u8],
    plain: &[u8],
) -> Result<Option<String>, AllocError> {
    if fast == plain {
        return Ok(None);
    }
    let fast = String::from_utf8_lossy(alloc, fast)?;
    let plain = String::from_utf8_lossy(alloc, plain)?;
    Ok(Some(format!(in alloc; "{what} is {fast:?}, of the plain recorder {plain:?}")?))
}

/// What the bytes are in hexadecimal digits, where they differ.
fn bytes_difference(
    alloc: Global,
    what: &str,
    fast: &[u8],
    plain: &[u8],
) -> Result<Option<String>, AllocError> {
    if fast == plain {
        return Ok(None);
    }
    let fast = hex::encode(alloc, fast)?;
    let plain = hex::encode(alloc, plain)?;
    difference_in(alloc, what, fast.as_bytes(), plain.as_bytes())
}

/// What the endings are, where they differ: their statuses, and the lines that tell them.
fn ending_difference(
    alloc: Global,
    code: &Code,
    fast: &Recorded,
    plain: &Recorded,
) -> Result<Option<String>, AllocError> {
    if status_of(fast.ending).code() != status_of(plain.ending).code() {
        return Ok(Some(String::from_str(alloc, "the status differs")?));
    }
    let fast = ending_line(alloc, code, fast.ending)?;
    let plain = ending_line(alloc, code, plain.ending)?;
    difference_in(alloc, "the ending", &fast, &plain)
}

/// What the reports are, where they differ.
fn report_difference(
    alloc: Global,
    code: &Code,
    fast: &Recorded,
    plain: &Recorded,
) -> Result<Option<String>, AllocError> {
    let fast = report(alloc, &fast.run, code)?;
    let plain = report(alloc, &plain.run, code)?;
    difference_in(alloc, "the report", &fast, &plain)
}

/// The bytes that differ first: the log, what was printed above the cut, or below it.
fn bytes_that_differ(
    alloc: Global,
    fast: &Recorded,
    plain: &Recorded,
) -> Result<Option<String>, AllocError> {
    let (log, plain_log) = (fast.log.as_slice(), plain.log.as_slice());
    if log != plain_log {
        return bytes_difference(alloc, "the log", log, plain_log);
    }
    let (output, plain_output) = (fast.run.output.as_slice(), plain.run.output.as_slice());
    if output != plain_output {
        return difference_in(alloc, "the output", output, plain_output);
    }
    let (output, plain_output) = (
        fast.system_output.as_slice(),
        plain.system_output.as_slice(),
    );
    difference_in(alloc, "the system output", output, plain_output)
}

/// The first thing that the two recordings have otherwise: how they end, their reports, logs, or what was printed.
pub fn difference_of(
    alloc: Global,
    code: &Code,
    fast: &Recorded,
    plain: &Recorded,
) -> Result<Option<String>, AllocError> {
    if let Some(found) = ending_difference(alloc, code, fast, plain)? {
        return Ok(Some(found));
    }
    if let Some(found) = report_difference(alloc, code, fast, plain)? {
        return Ok(Some(found));
    }
    bytes_that_differ(alloc, fast, plain)
}

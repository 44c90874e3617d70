// Case files.

use crate::case::{Case, Line};
use std::alloc::{AllocError, Global};

// Adds the line to the last case. Lines before the first name are a case without one.
fn add_line<'a>(
    alloc: Global,
    cases: &mut Vec<Case<'a>>,
    line: Line<'a>,
) -> Result<(), AllocError> {
    if let Some(case) = cases.last_mut() {
        case.lines.push(line)?;
        return Ok(());
    }
    let mut lines = Vec::new(alloc);
    lines.push(line)?;
    cases.push(Case { name: "", lines })?;
    Ok(())
}

// Takes a line of the file: a note, the name of a case or a line of one.
fn take<'a>(
    alloc: Global,
    cases: &mut Vec<Case<'a>>,
    number: usize,
    text: &'a str,
) -> Result<(), AllocError> {
    if text.is_empty() || text.starts_with('#') {
        return Ok(());
    }
    let (word, rest) = text.split_once(' ').unwrap_or((text, ""));
    if word == "==" {
        let lines = Vec::new(alloc);
        cases.push(Case { name: rest, lines })?;
        return Ok(());
    }
    add_line(alloc, cases, Line { number, word, rest })
}

/// The cases of a case file. A line `== NAME` begins a case, the lines after it are its own. Empty lines and
/// those that begin with `#` say nothing.
pub fn cases_of<'a>(alloc: Global, text: &'a str) -> Result<Vec<Case<'a>>, AllocError> {
    let mut cases = Vec::new(alloc);
    let mut number: usize = 0;
    for line in text.lines() {
        number = number.saturating_add(1);
        take(alloc, &mut cases, number, line)?;
    }
    Ok(cases)
}

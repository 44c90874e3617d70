//! A file of sources in one line each, under headings that say what `check` answers.

use crate::difference::{Wanted, compare_run};
use crate::fault::Fault;
use crate::marked::put_marked;
use crate::report::Report;
use crate::text::put_line;
use r2_cli_outcome::Status;
use std::alloc::{AllocError, Global};
use test_runs::{Left, check_cut};

/// The cases of a file so far, and what holds for those below.
#[derive(Drop)]
struct Rules<'a> {
    alloc: Global,
    report: Report<'a>,
    /// The heading, and what it wants.
    name: &'a str,
    wanted: &'a str,
    /// What stands before and after each source.
    before: &'a str,
    after: &'a str,
}

/// Runs the cases of a file, and answers the lines that tell what differs and how many pass.
pub fn run_rules<'a>(alloc: Global, file: &'a str, text: &'a str) -> Result<String, AllocError> {
    let mut rules = Rules {
        alloc,
        report: Report::new(alloc, file),
        name: "before the first heading",
        wanted: "",
        before: "",
        after: "",
    };
    for line in text.lines() {
        rules.take(line);
    }
    let Rules {
        alloc: _,
        report,
        name: _,
        wanted: _,
        before: _,
        after: _,
    } = rules;
    report.end()
}

/// A status with its line.
fn refused(alloc: Global, status: u8, words: &str) -> Result<Wanted, Fault> {
    let mut wanted = Wanted::nothing(alloc);
    wanted.status = status;
    let line = format!(in alloc; "r2: {words}")?;
    put_line(&mut wanted.err, line.as_str())?;
    Ok(wanted)
}

/// What `check` leaves of a source that is right, whatever it found in its cut.
fn right(alloc: Global, left: &Left) -> Result<Wanted, Fault> {
    let mut wanted = Wanted::nothing(alloc);
    if left.status == Status::Findings {
        wanted.status = 1;
        wanted.out.extend_from_slice(&left.out)?;
    } else {
        put_line(&mut wanted.out, "accepted")?;
    }
    Ok(wanted)
}

/// What `check` leaves that refuses a source with these words, where a rule is broken at the mark.
fn refused_at(alloc: Global, words: &str, mark: Option<usize>) -> Result<Wanted, Fault> {
    if words.starts_with("limit ") {
        return refused(alloc, 13, words);
    }
    if words.starts_with("no cut ") {
        return refused(alloc, 3, words);
    }
    let Some(place) = mark else {
        return Err(Fault::NoMark);
    };
    let line = format!(in alloc; "source {place} {words}")?;
    refused(alloc, 3, line.as_str())
}

impl<'a> Rules<'a> {
    /// Does what the next line says.
    fn take(&mut self, line: &'a str) {
        self.report.next_line();
        let (word, rest) = line.split_once(' ').unwrap_or((line, ""));
        match word {
            "" if rest.is_empty() => (),
            "#" => (),
            "==" => self.head(rest),
            "before" => self.before = rest,
            "after" => self.after = rest,
            _ => self.case(line),
        }
    }

    fn head(&mut self, heading: &'a str) {
        self.name = heading;
        self.wanted = match heading.split_once(": ") {
            Some((wanted, _)) => wanted,
            None => "",
        };
    }

    fn case(&mut self, source: &str) {
        self.report.begin(self.name);
        if let Err(fault) = self.judge(source) {
            self.report.fail(&fault);
        }
    }

    /// Runs `check` on the source with what stands around it.
    fn judge(&self, marked: &str) -> Result<(), Fault> {
        if self.wanted.is_empty() {
            return Err(Fault::NoForm);
        }
        let (before, after) = (self.before, self.after);
        let whole = format!(in self.alloc; "{before}{marked}{after}")?;
        let mut source = Vec::new(self.alloc);
        let mark = put_marked(self.alloc, &mut source, whole.as_str())?;
        let left = check_cut(self.alloc, &source, "c")?;
        let wanted = if self.wanted == "right" {
            right(self.alloc, &left)?
        } else {
            refused_at(self.alloc, self.wanted, mark)?
        };
        compare_run(self.alloc, &wanted, &left)
    }
}

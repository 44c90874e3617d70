//! What is printed of the cases of a file.

use crate::fault::Fault;
use std::alloc::{AllocError, Global};
use std::fmt::Write;

/// The cases of a file so far: how many there are, how many fail, and a line for each difference.
#[derive(Drop)]
pub struct Report<'a> {
    file: &'a str,
    /// The number of the line that is read, from 1.
    line: usize,
    /// The case in hand.
    name: &'a str,
    cases: usize,
    failed: usize,
    /// The case in hand fails.
    fails: bool,
    text: String,
    /// There was no memory for all of the text.
    is_cut: bool,
}

impl<'a> Report<'a> {
    pub fn new(alloc: Global, file: &'a str) -> Self {
        Report {
            file,
            line: 0,
            name: "before the first case",
            cases: 0,
            failed: 0,
            fails: false,
            text: String::new(alloc),
            is_cut: false,
        }
    }

    /// The next line of the file is read.
    pub fn next_line(&mut self) {
        self.line = self.line.saturating_add(1);
    }

    /// The number of the line that is read.
    pub fn line(&self) -> usize {
        self.line
    }

    /// A case of this name begins.
    pub fn begin(&mut self, name: &'a str) {
        self.name = name;
        self.cases = self.cases.saturating_add(1);
        self.fails = false;
    }

    /// The case in hand fails for the line that is read.
    pub fn fail(&mut self, fault: &Fault) {
        let line = self.line;
        self.fail_at(line, fault);
    }

    /// The case in hand fails for a line. What stands before the first case counts as one.
    pub fn fail_at(&mut self, line: usize, fault: &Fault) {
        self.cases = self.cases.max(1);
        if !self.fails {
            self.failed = self.failed.saturating_add(1);
        }
        self.fails = true;
        let (file, name, words) = (self.file, self.name, fault.words());
        let is_cut = writeln!(self.text, "{file}:{line}: {name}: {words}").is_err();
        self.is_cut = self.is_cut || is_cut;
    }

    /// The lines of all differences, and of the counts.
    pub fn end(self) -> Result<String, AllocError> {
        let Report {
            file,
            line: _,
            name: _,
            cases,
            failed,
            fails: _,
            mut text,
            is_cut,
        } = self;
        let passed = cases.saturating_sub(failed);
        writeln!(text, "{file}: {passed} of {cases}")?;
        if is_cut { Err(AllocError) } else { Ok(text) }
    }
}

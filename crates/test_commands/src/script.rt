//! A file of cases that are written out: files, runs, and what these leave.

use crate::case::Case;
use crate::fault::Fault;
use crate::line::{Line, line_of};
use crate::report::Report;
use std::alloc::{AllocError, Global};
use std::fs;
use std::rt::Files;

/// The cases of a file so far, and the one in hand.
#[derive(Drop)]
struct Script<'a> {
    alloc: Global,
    report: Report<'a>,
    case: Case<'a>,
    /// The line at which it begins; 0 before the first case.
    begun: usize,
    /// The line of its last run, or of the file that it named last.
    named: usize,
}

/// Runs the cases of a file, and answers the lines that tell what differs and how many pass. What lines take
/// `from` a file of the data is read by the runtime.
pub fn run_script<'a, R: Files + AllocGlobal>(
    rt: &R,
    file: &'a str,
    text: &'a str,
) -> Result<String, AllocError> {
    let alloc = rt.alloc();
    let mut script = Script {
        alloc,
        report: Report::new(alloc, file),
        case: Case::new(alloc),
        begun: 0,
        named: 0,
    };
    for line in text.lines() {
        script.take(rt, line);
    }
    script.end()
}

/// What a file of the data holds.
fn data<R: Files + AllocGlobal>(rt: &R, name: &str) -> Result<Vec<u8>, Fault> {
    match fs::read(rt, name) {
        Ok(bytes) => Ok(bytes),
        Err(_) => Err(Fault::NoData),
    }
}

impl<'a> Script<'a> {
    /// Does what the next line says.
    fn take<R: Files + AllocGlobal>(&mut self, rt: &R, text: &'a str) {
        self.report.next_line();
        let Some(line) = line_of(text) else {
            self.report.fail(&Fault::NoForm);
            return;
        };
        if line.settles() {
            self.settle();
        }
        if let Err(fault) = self.does(rt, line) {
            self.report.fail(&fault);
        }
    }

    fn does<R: Files + AllocGlobal>(&mut self, rt: &R, line: Line<'a>) -> Result<(), Fault> {
        match line {
            Line::Nothing => Ok(()),
            Line::Case(name) => self.begin(name),
            _ if self.begun == 0 => Err(Fault::NoCase),
            Line::File(name, from) => self.file(rt, name, from),
            _ => self.case.does(line),
        }
    }

    fn begin(&mut self, name: &'a str) -> Result<(), Fault> {
        self.close();
        self.case = Case::new(self.alloc);
        self.begun = self.report.line();
        self.report.begin(name);
        Ok(())
    }

    fn file<R: Files + AllocGlobal>(
        &mut self,
        rt: &R,
        name: &'a str,
        from: Option<&str>,
    ) -> Result<(), Fault> {
        let bytes = match from {
            Some(from) => data(rt, from)?,
            None => Vec::new(self.alloc),
        };
        self.case.take(name, bytes);
        Ok(())
    }

    /// Compares what stands above.
    fn settle(&mut self) {
        if let Err(fault) = self.case.settle() {
            self.report.fail_at(self.named, &fault);
        }
        self.named = self.report.line();
    }

    /// Ends the case in hand. One without a run fails.
    fn close(&mut self) {
        self.settle();
        if self.begun > 0 && !self.case.has_run() {
            self.report.fail_at(self.begun, &Fault::NoRun);
        }
    }

    fn end(mut self) -> Result<String, AllocError> {
        self.close();
        let Script {
            alloc: _,
            report,
            case: _,
            begun: _,
            named: _,
        } = self;
        report.end()
    }
}

// Cases of marks.

use crate::run::{Below, Run, marks_of};
use c_code::Side;
use std::alloc::{AllocError, Global};
use test_cases::{Case, Line, Output, difference, no_form};

/// What stands after each source, so that it names the cut and has a program.
const AFTER: &str = " [cut(c)] int seam(void); int main(void) { return 0; }";

/// A source, a call of one of its functions, and the marks that are wanted of it.
#[derive(Drop)]
struct MarksCase<'a> {
    source: Output,
    run: Run<'a>,
    marks: Output,
}

/// The number as 64 bits; `None` of no number, or one with more.
fn number_of(word: &str) -> Option<u64> {
    match word.parse::<i64>() {
        Ok(number) => Some(number.cast_unsigned()),
        Err(_) => None,
    }
}

/// What `runs`, `goes up`, `gives N` or `calls FUNCTION N` says of a call.
fn below_of(text: &str) -> Option<Below<'_>> {
    match text {
        "runs" => Some(Below::Runs),
        "goes up" => Some(Below::GoesUp),
        _ => below_with_number(text),
    }
}

fn below_with_number(text: &str) -> Option<Below<'_>> {
    let (before, number) = text.rsplit_once(' ')?;
    let number = number_of(number)?;
    if before == "gives" {
        return Some(Below::Gives(number));
    }
    let func = before.strip_prefix("calls ")?;
    Some(Below::CallsBack(func, number))
}

impl<'a> MarksCase<'a> {
    /// A call of `f` without arguments in replay mode.
    fn new(alloc: Global) -> MarksCase<'a> {
        let run = Run {
            func: "f",
            args: Vec::new(alloc),
            side: Side::Replay,
            below: Vec::new(alloc),
        };
        MarksCase {
            source: Output::new(alloc),
            run,
            marks: Output::new(alloc),
        }
    }

    /// The function is that of `FUNCTION N N ..`; false where one of these isn't a number.
    fn take_call(&mut self, text: &'a str) -> Result<bool, AllocError> {
        let mut words = text.split_whitespace();
        self.run.func = words.next().unwrap_or("");
        for word in words {
            let Some(number) = number_of(word) else {
                return Ok(false);
            };
            self.run.args.push(number)?;
        }
        Ok(true)
    }

    /// Something becomes of a call; false where it is of no form.
    fn take_below(&mut self, text: &'a str) -> Result<bool, AllocError> {
        let Some(below) = below_of(text) else {
            return Ok(false);
        };
        self.run.below.push(below)?;
        Ok(true)
    }

    /// Takes a line of the case; false where it is of no form.
    fn take(&mut self, line: Line<'a>) -> Result<bool, AllocError> {
        match (line.word, line.rest) {
            ("|", text) => self.source.put_after("\n", text),
            ("marks", words) => self.marks.put_after(" ", words),
            ("mode", "system") => self.run.side = Side::System,
            ("call", text) => return self.take_call(text),
            ("below", text) => return self.take_below(text),
            _ => return Ok(false),
        }
        Ok(true)
    }

    /// What the marks have otherwise than is wanted.
    fn difference(self, alloc: Global) -> Result<Option<String>, AllocError> {
        let MarksCase {
            mut source,
            run,
            marks,
        } = self;
        source.put(AFTER);
        let source = source.finish()?;
        let wanted = marks.finish()?;
        match marks_of(alloc, source.as_str(), &run) {
            Ok(made) => difference(alloc, wanted.as_str(), made.as_str()),
            Err(_) => Ok(Some(String::from_str(alloc, "the source is refused")?)),
        }
    }
}

/// What the case has otherwise than it wants: marks, or a line that is of no form.
pub fn judge<'a>(alloc: Global, case: &Case<'a>) -> Result<Option<String>, AllocError> {
    let mut wanted = MarksCase::new(alloc);
    for line in &case.lines {
        if !wanted.take(*line)? {
            return no_form(alloc, *line);
        }
    }
    wanted.difference(alloc)
}

// Cases of system files.

use crate::scripts::script_of;
use std::alloc::{AllocError, Global};
use test_cases::{Case, Line, Output, difference, no_form};

/// The source of a case without one: a `char`, an `int`, a `long` and an address, and functions that write one region and two.
const SOURCE: &str = "\
[cut(c)] char letter(void);
[cut(c)] int now(void);
[cut(c)] long time(void);
[cut(c)] void *place(void);
[cut(c)] int read([out, cap(n), bsize(return)] char *p, int n);
[cut(c)] void swap([out, bsize(8)] char *a, [out, bsize(8)] char *b);
int main(void) { return now(); }
";

/// The source, or that of a case without one.
fn source_or_own(source: &str) -> &str {
    if source.is_empty() { SOURCE } else { source }
}

/// Adds the line with its end.
fn put_line(to: &mut Output, line: &str, end: &str) {
    to.put(line);
    to.put(end);
}

/// Adds the line so many times, each with its end.
fn put_lines(to: &mut Output, times: usize, line: &str) {
    for _ in 0..times {
        put_line(to, line, "\n");
    }
}

/// A source with a cut, a system file for it, and what is wanted of the file.
#[derive(Drop)]
struct ScriptCase<'a> {
    source: Output,
    cut: &'a str,
    script: Output,
    wanted: Output,
}

impl<'a> ScriptCase<'a> {
    fn new(alloc: Global) -> ScriptCase<'a> {
        ScriptCase {
            source: Output::new(alloc),
            cut: "c",
            script: Output::new(alloc),
            wanted: Output::new(alloc),
        }
    }

    /// Takes a line of the case; false where it is of no form.
    fn take(&mut self, line: Line<'a>) -> bool {
        match line.word {
            "|" => self.source.put_after("\n", line.rest),
            "cut" => self.cut = line.rest,
            "%" => put_line(&mut self.script, line.rest, "\n"),
            "return" => put_line(&mut self.script, line.rest, "\r\n"),
            "unended" => self.script.put(line.rest),
            ">" => put_line(&mut self.wanted, line.rest, "\n"),
            _ => return self.take_times(line),
        }
        true
    }

    /// Takes a line with a text so many times; false where it is of no form.
    fn take_times(&mut self, line: Line<'a>) -> bool {
        let (number, text) = line.rest.split_once(' ').unwrap_or((line.rest, ""));
        let Ok(times) = number.parse::<usize>() else {
            return false;
        };
        match line.word {
            "repeat" => self.script.put_times(times, text),
            "lines" => put_lines(&mut self.script, times, text),
            "wants" => put_lines(&mut self.wanted, times, text),
            _ => return false,
        }
        true
    }

    /// What the file says otherwise than is wanted.
    fn difference(self, alloc: Global) -> Result<Option<String>, AllocError> {
        let ScriptCase {
            source,
            cut,
            script,
            wanted,
        } = self;
        let source = source.finish()?;
        let script = script.finish()?;
        let wanted = wanted.finish()?;
        let source = source_or_own(source.as_str());
        match script_of(alloc, source, cut, script.as_str()) {
            Ok(said) => difference(alloc, wanted.as_str(), said.as_str()),
            Err(_) => Ok(Some(String::from_str(alloc, "the source is refused")?)),
        }
    }
}

/// What the case has otherwise than it wants, or a line that is of no form.
pub fn judge<'a>(alloc: Global, case: &Case<'a>) -> Result<Option<String>, AllocError> {
    let mut wanted = ScriptCase::new(alloc);
    for line in &case.lines {
        if !wanted.take(*line) {
            return no_form(alloc, *line);
        }
    }
    wanted.difference(alloc)
}

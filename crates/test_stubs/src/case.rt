// Cases of stubs.

use crate::stubs::stubs_of;
use std::alloc::{AllocError, Global};
use test_cases::{Case, Line, Output, difference, no_form};

/// A source with a cut, and the lines that are wanted of its stubs.
#[derive(Drop)]
struct StubsCase<'a> {
    source: Output,
    cut: &'a str,
    /// The stubs of builtins are wanted too.
    all: bool,
    stubs: Output,
}

impl<'a> StubsCase<'a> {
    fn new(alloc: Global) -> StubsCase<'a> {
        StubsCase {
            source: Output::new(alloc),
            cut: "c",
            all: false,
            stubs: Output::new(alloc),
        }
    }

    /// Takes a line of the case; false where it is of no form.
    fn take(&mut self, line: Line<'a>) -> bool {
        match line.word {
            "|" => self.source.put_after("\n", line.rest),
            "cut" => self.cut = line.rest,
            "all" => self.all = true,
            ">" => {
                self.stubs.put(line.rest);
                self.stubs.put("\n");
            }
            _ => return false,
        }
        true
    }

    /// What the stubs have otherwise than is wanted.
    fn difference(self, alloc: Global) -> Result<Option<String>, AllocError> {
        let StubsCase {
            source,
            cut,
            all,
            stubs,
        } = self;
        let source = source.finish()?;
        let wanted = stubs.finish()?;
        match stubs_of(alloc, source.as_str(), cut, all) {
            Ok(made) => difference(alloc, wanted.as_str(), made.as_str()),
            Err(_) => Ok(Some(String::from_str(alloc, "the source is refused")?)),
        }
    }
}

/// What the case has otherwise than it wants: stubs, or a line that is of no form.
pub fn judge<'a>(alloc: Global, case: &Case<'a>) -> Result<Option<String>, AllocError> {
    let mut wanted = StubsCase::new(alloc);
    for line in &case.lines {
        if !wanted.take(*line) {
            return no_form(alloc, *line);
        }
    }
    wanted.difference(alloc)
}

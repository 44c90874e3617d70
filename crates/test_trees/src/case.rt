// Cases of trees.

use crate::source::show_source;
use std::alloc::{AllocError, Global};
use test_cases::{Case, Line, Output, difference, no_form};

/// A source, and the lines that are wanted of its tree.
#[derive(Drop)]
struct TreeCase {
    source: Output,
    tree: Output,
    /// The last line that began a text began one of the tree.
    in_tree: bool,
}

impl TreeCase {
    fn new(alloc: Global) -> TreeCase {
        TreeCase {
            source: Output::new(alloc),
            tree: Output::new(alloc),
            in_tree: false,
        }
    }

    /// Adds the text to what the last line began.
    fn put(&mut self, times: usize, text: &str) {
        if self.in_tree {
            self.tree.put_times(times, text);
        } else {
            self.source.put_times(times, text);
        }
    }

    /// Adds the text of `N TEXT` N times to what the last line began; false where there is no such number.
    fn repeat(&mut self, rest: &str) -> bool {
        let Some((number, text)) = rest.split_once(' ') else {
            return false;
        };
        let Ok(times) = number.parse::<usize>() else {
            return false;
        };
        self.put(times, text);
        true
    }

    /// Begins a line of the source.
    fn begin_source(&mut self, text: &str) {
        self.in_tree = false;
        self.source.put_after("\n", text);
    }

    /// Begins a line of the tree.
    fn begin_tree(&mut self, word: &str, text: &str) {
        self.in_tree = true;
        self.tree.put_after("\n", word);
        self.tree.put(text);
    }

    /// Takes a line of the case; false where it is of no form.
    fn take(&mut self, line: Line<'_>) -> bool {
        match line.word {
            "|" => self.begin_source(line.rest),
            "tree" => self.begin_tree("", line.rest),
            "error" => self.begin_tree("error ", line.rest),
            "-" => self.put(1, line.rest),
            "times" => return self.repeat(line.rest),
            _ => return false,
        }
        true
    }

    /// What the source's tree has otherwise than is wanted.
    fn difference(self, alloc: Global) -> Result<Option<String>, AllocError> {
        let TreeCase {
            source,
            tree,
            in_tree: _,
        } = self;
        let source = source.finish()?;
        let wanted = tree.finish()?;
        let made = show_source(alloc, source.as_str()).finish()?;
        difference(alloc, wanted.as_str(), made.as_str())
    }
}

/// What the case has otherwise than it wants: a tree, or a line that is of no form.
pub fn judge(alloc: Global, case: &Case<'_>) -> Result<Option<String>, AllocError> {
    let mut wanted = TreeCase::new(alloc);
    for line in &case.lines {
        if !wanted.take(*line) {
            return no_form(alloc, *line);
        }
    }
    wanted.difference(alloc)
}

// The texts of a case.

use std::alloc::{AllocError, Global};
use test_cases::{Case, Line, Output};

/// The source of a case, its cut, and the system file, as either recorder takes it.
#[derive(Drop)]
pub struct Texts {
    pub source: String,
    pub cut: String,
    pub system: String,
    pub plain_system: String,
}

/// The first line that is of no form.
pub fn wrong_line<'a>(case: &Case<'a>) -> Option<Line<'a>> {
    for line in &case.lines {
        match line.word {
            "|" | ">" | "fast" | "plain" | "cut" => {}
            _ => return Some(*line),
        }
    }
    None
}

/// The text of the lines that begin with one of the two words, each with its end.
fn lines_of(alloc: Global, case: &Case<'_>, word: &str, other: &str) -> Result<String, AllocError> {
    let mut text = Output::new(alloc);
    for line in &case.lines {
        if line.word == word || line.word == other {
            text.put(line.rest);
            text.put("\n");
        }
    }
    text.finish()
}

/// What the last line that begins with `cut` names; `top` where there is none.
fn cut_of<'a>(case: &Case<'a>) -> &'a str {
    let mut cut = "top";
    for line in &case.lines {
        if line.word == "cut" {
            cut = line.rest;
        }
    }
    cut
}

/// The texts of a case whose lines are all of a form.
pub fn texts_of(alloc: Global, case: &Case<'_>) -> Result<Texts, AllocError> {
    Ok(Texts {
        source: lines_of(alloc, case, "|", "|")?,
        cut: String::from_str(alloc, cut_of(case))?,
        system: lines_of(alloc, case, ">", "fast")?,
        plain_system: lines_of(alloc, case, ">", "plain")?,
    })
}

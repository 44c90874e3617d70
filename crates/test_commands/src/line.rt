//! The forms of a line of a case file.

/// A kind of call on the outside.
#[derive(Clone, Copy)]
pub enum Call {
    Read,
    Write,
    Out,
    Err,
}

/// What a line of a case file says.
#[derive(Clone, Copy)]
pub enum Line<'a> {
    /// It is empty, or a note.
    Nothing,
    /// A case of this name begins.
    Case(&'a str),
    /// The file of this name is in hand: it is empty, or holds what a file of the data holds.
    File(&'a str, Option<&'a str>),
    /// The file of this name is in hand, with what it holds.
    Change(&'a str),
    /// A text with a line end.
    Text(&'a str),
    /// A text without a line end.
    Piece(&'a str),
    /// Bytes in hexadecimal digits.
    Hex(&'a str),
    /// A text so many times.
    Times(usize, &'a str),
    /// The bytes from a place on are these.
    Set(usize, &'a str),
    /// So many bytes stay.
    Cut(usize),
    /// A read of the next run gives at most so many bytes.
    Reads(u64),
    /// The call of the next run with this number fails, counted from 0 over the calls of its kind.
    Fail(Call, u64),
    Run(&'a str),
    Status(u8),
    /// Standard output has this line.
    Out(&'a str),
    /// Standard output has this text without a line end.
    OutPiece(&'a str),
    /// Standard error has this line.
    Err(&'a str),
    /// Standard error has this text without a line end.
    ErrPiece(&'a str),
    /// The file of this name holds the text below.
    Holds(&'a str),
    /// Two files hold the same.
    Same(&'a str, &'a str),
}

impl Line<'_> {
    /// Whether all that is said of a run, or of what a file holds, stands above it.
    pub fn settles(self) -> bool {
        match self {
            Line::Case(_)
            | Line::File(_, _)
            | Line::Change(_)
            | Line::Run(_)
            | Line::Holds(_)
            | Line::Same(_, _) => true,
            _ => false,
        }
    }
}

/// What the line says; none where it has none of the forms.
pub fn line_of(line: &str) -> Option<Line<'_>> {
    let (word, rest) = line.split_once(' ').unwrap_or((line, ""));
    match word {
        "" if rest.is_empty() => Some(Line::Nothing),
        "#" => Some(Line::Nothing),
        "==" => Some(Line::Case(rest)),
        "change" => Some(Line::Change(rest)),
        "|" => Some(Line::Text(rest)),
        "-" => Some(Line::Piece(rest)),
        "hex" => Some(Line::Hex(rest)),
        "run" => Some(Line::Run(rest)),
        "out" => Some(Line::Out(rest)),
        "out-" => Some(Line::OutPiece(rest)),
        "err" => Some(Line::Err(rest)),
        "err-" => Some(Line::ErrPiece(rest)),
        "holds" => Some(Line::Holds(rest)),
        "file" => Some(file_of(rest)),
        _ => other_line(word, rest),
    }
}

/// A line that puts a file in hand.
fn file_of(rest: &str) -> Line<'_> {
    match rest.split_once(" from ") {
        Some((name, from)) => Line::File(name, Some(from)),
        None => Line::File(rest, None),
    }
}

/// A line with a number, or with two words.
fn other_line<'a>(word: &str, rest: &'a str) -> Option<Line<'a>> {
    let (first, second) = rest.split_once(' ').unwrap_or((rest, ""));
    match word {
        "times" => Some(Line::Times(first.parse().ok()?, second)),
        "set" => Some(Line::Set(first.parse().ok()?, second)),
        "cut" => Some(Line::Cut(rest.parse().ok()?)),
        "reads" => Some(Line::Reads(rest.parse().ok()?)),
        "fail" => Some(Line::Fail(call_of(first)?, second.parse().ok()?)),
        "status" => Some(Line::Status(rest.parse().ok()?)),
        "same" => Some(Line::Same(first, second)),
        _ => None,
    }
}

/// The kind of call that a word names.
fn call_of(word: &str) -> Option<Call> {
    match word {
        "read" => Some(Call::Read),
        "write" => Some(Call::Write),
        "out" => Some(Call::Out),
        "err" => Some(Call::Err),
        _ => None,
    }
}

// Cases of a case file.

/// A line of a case.
#[derive(Clone, Copy)]
pub struct Line<'a> {
    /// Its number in the file, from 1.
    pub number: usize,
    /// What stands before its first blank: the form of the line.
    pub word: &'a str,
    /// What stands after its first blank.
    pub rest: &'a str,
}

/// A case: what it shows, and its lines.
#[derive(Drop)]
pub struct Case<'a> {
    pub name: &'a str,
    pub lines: Vec<Line<'a>>,
}

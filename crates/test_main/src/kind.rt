// Kinds of case files.

/// What the cases of a file of named lines are about.
#[derive(Clone, Copy)]
pub enum Subject {
    Trees,
    Marks,
    /// System files.
    Scripts,
    Stubs,
    Reports,
    Recordings,
}

/// A kind of case file.
#[derive(Clone, Copy)]
pub enum CaseKind {
    /// Cases of named lines, which are judged one by one.
    Cases(Subject),
    /// Calls on the memory of a run.
    Memory,
    /// Commands that are written out.
    Commands,
    /// Sources in one line each, under headings.
    Rules,
}

/// The kind of a file, by the ending of its name; `None` where no kind has that ending.
pub fn kind_of(name: &str) -> Option<CaseKind> {
    let (_, ending) = name.rsplit_once('.')?;
    match ending {
        "tree" => Some(CaseKind::Cases(Subject::Trees)),
        "marks" => Some(CaseKind::Cases(Subject::Marks)),
        "script" => Some(CaseKind::Cases(Subject::Scripts)),
        "stubs" => Some(CaseKind::Cases(Subject::Stubs)),
        "report" => Some(CaseKind::Cases(Subject::Reports)),
        "recording" => Some(CaseKind::Cases(Subject::Recordings)),
        "memory" => Some(CaseKind::Memory),
        "case" => Some(CaseKind::Commands),
        "rules" => Some(CaseKind::Rules),
        _ => None,
    }
}

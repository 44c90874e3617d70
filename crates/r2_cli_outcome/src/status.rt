//! How a run of the program ends.

ghost use Rattle.std.specs.Prelude.{◌≡◌};
ghost use Rattle.r2_cli_outcome.specs.Code.{code_of};

/// How a run of the program ends.
#[derive(Clone, Copy, Debug, PartialEq, Eq)]
pub enum Status {
    /// The command did what it is for.
    Done,
    /// The source is right, and its cut isn't: what was found was printed.
    Findings,
    /// The words have none of the forms of the command line.
    Usage,
    /// The source breaks a rule, or no declaration names the cut.
    Source,
    /// A line of the system file is wrong.
    System,
    /// The run that was recorded met a fault.
    Fault,
    /// The run that was recorded stopped before a breach.
    Breach,
    /// The run that was recorded was halted.
    Halted,
    /// The log is a proper prefix of a log text. Its closed part was printed.
    Short,
    /// The bytes of the log, or the order of its events, are wrong.
    BadLog,
    /// A file could not be read, or isn't there.
    ReadFault,
    /// A write failed.
    WriteFault,
    /// A limit is exceeded.
    Limit,
    /// Out of memory.
    NoMemory,
}

impl Status {
    /// The exit status of the process.
    pub fn code(self) -> u8
        ensures { result ≡ code_of self }
    {
        match self {
            Status::Done => 0,
            Status::Findings => 1,
            Status::Usage => 2,
            Status::Source => 3,
            Status::System => 4,
            Status::Fault => 5,
            Status::Breach => 6,
            Status::Halted => 7,
            Status::Short => 8,
            Status::BadLog => 9,
            Status::ReadFault => 11,
            Status::WriteFault => 12,
            Status::Limit => 13,
            Status::NoMemory => 14,
        }
    }
}

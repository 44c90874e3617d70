// What a call answers.

use memory_map::{Bytes8, Range};
use space_memory::{Cell, HoldError};
use space_memory_access::Refusal;
use std::fmt;

/// The answer of a call. It is written in words, numbers in hexadecimal.
#[derive(Drop)]
pub enum Answer {
    Done,
    Nothing,
    Number(u64),
    Place(Range),
    Cells([Cell; 16]),
    Bytes(Bytes8),
    Holds(bool),
    Refused(Refusal),
    OutOfMemory,
    /// The call may not be made.
    NoCall,
}

/// The word of the cause.
fn cause(refusal: Refusal) -> &'static str {
    match refusal {
        Refusal::NotLive { .. } => "notlive",
        Refusal::Pending { .. } => "pending",
        Refusal::OtherSpace { .. } => "otherspace",
        Refusal::ReadOnly { .. } => "readonly",
        Refusal::StackFull { .. } => "stackfull",
        Refusal::KeyInUse { .. } => "keyinuse",
        Refusal::NoKey { .. } => "nokey",
        Refusal::Size { .. } => "size",
    }
}

/// Writes a byte as two digits, `--` where it is dead, `??` where it is to be written below the cut.
fn write_cell<W: fmt::Write>(f: &mut fmt::Formatter<W>, cell: Cell) -> fmt::Result {
    match cell {
        Cell::Dead => write!(f, "--"),
        Cell::Pending => write!(f, "??"),
        Cell::Byte(byte) => write!(f, "{byte:02x}"),
    }
}

/// Writes bytes, with a blank between two.
fn write_cells<W: fmt::Write>(f: &mut fmt::Formatter<W>, cells: &[Cell]) -> fmt::Result {
    let mut is_first = true;
    for cell in cells {
        if !is_first {
            write!(f, " ")?;
        }
        is_first = false;
        write_cell(f, *cell)?;
    }
    Ok(())
}

/// Writes bytes as two digits each, with a blank between two; `empty` where there are none.
fn write_bytes<W: fmt::Write>(f: &mut fmt::Formatter<W>, bytes: &[u8]) -> fmt::Result {
    if bytes.is_empty() {
        return write!(f, "empty");
    }
    let mut is_first = true;
    for byte in bytes {
        if !is_first {
            write!(f, " ")?;
        }
        is_first = false;
        write!(f, "{byte:02x}")?;
    }
    Ok(())
}

impl fmt::Display for Answer {
    fn fmt<W: fmt::Write>(&self, f: &mut fmt::Formatter<W>) -> fmt::Result {
        match self {
            Answer::Done => write!(f, "ok"),
            Answer::Nothing => write!(f, "none"),
            Answer::Number(number) => write!(f, "{number:#x}"),
            Answer::Place(range) => {
                let addr = range.addr;
                let len = range.len;
                write!(f, "{addr:#x} {len:#x}")
            }
            Answer::Cells(cells) => write_cells(f, cells),
            Answer::Bytes(bytes) => write_bytes(f, bytes.as_slice()),
            Answer::Holds(true) => write!(f, "yes"),
            Answer::Holds(false) => write!(f, "no"),
            Answer::Refused(refusal) => {
                let cause = cause(*refusal);
                let addr = refusal.addr();
                write!(f, "{cause} {addr:#x}")
            }
            Answer::OutOfMemory => write!(f, "out of memory"),
            Answer::NoCall => write!(f, "no call"),
        }
    }
}

impl From<Result<u64, Refusal>> for Answer {
    fn from(outcome: Result<u64, Refusal>) -> Answer {
        match outcome {
            Ok(number) => Answer::Number(number),
            Err(refusal) => Answer::Refused(refusal),
        }
    }
}

impl From<Result<(), Refusal>> for Answer {
    fn from(outcome: Result<(), Refusal>) -> Answer {
        match outcome {
            Ok(()) => Answer::Done,
            Err(refusal) => Answer::Refused(refusal),
        }
    }
}

impl From<HoldError> for Answer {
    fn from(error: HoldError) -> Answer {
        match error {
            HoldError::Refused(refusal) => Answer::Refused(refusal),
            HoldError::Memory => Answer::OutOfMemory,
        }
    }
}

impl From<Option<u64>> for Answer {
    fn from(number: Option<u64>) -> Answer {
        match number {
            Some(number) => Answer::Number(number),
            None => Answer::Nothing,
        }
    }
}

impl From<Option<Range>> for Answer {
    fn from(range: Option<Range>) -> Answer {
        match range {
            Some(range) => Answer::Place(range),
            None => Answer::Nothing,
        }
    }
}

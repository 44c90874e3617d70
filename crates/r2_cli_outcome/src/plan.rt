//! What a command will write, before anything is written.

ghost use Rattle.std.specs.Prelude.{◌≡◌, [], IfOk};
ghost use Rattle.r2_cli_outcome.specs.Outcome.{refusal, line_of, printed};
ghost use Rattle.r2_cli_outcome.specs.Plans.{IsEnd, bytes_of, outcome_of};

use crate::status::Status;
use c_code_fused::FusedCode;
use call_inspector::Run;
use log_closure::Closed;
use std::alloc::{AllocError, AllocFailed, Global};

/// Where a text goes.
#[derive(Drop)]
pub enum Target {
    /// The file of this name, which it replaces.
    File(String),
    Output,
    Errors,
}

/// A run, and the code that ran.
#[derive(Drop)]
pub struct Ran {
    pub run: Run,
    pub code: FusedCode,
}

/// A text to be written.
#[derive(Drop)]
pub enum Text {
    Bytes(Vec<u8>),
    /// What `order` prints of these events, which is made piece by piece as it is written.
    Order(Closed),
    /// The report of this run, which is made piece by piece as it is written.
    Report(Ran),
}

/// A text, and where it goes.
#[derive(Drop)]
pub struct Write {
    pub to: Target,
    pub text: Text,
}

/// All that a command leaves: its status, its writes in their order, and its line on standard error.
#[derive(Drop)]
pub struct Plan {
    pub status: Status,
    pub writes: Vec<Write>,
    pub line: Vec<u8>,
}

/// Why a stage gives no value.
#[derive(Drop)]
pub enum End {
    /// The command ends here, with this.
    Planned(Plan),
    /// A read failed.
    ReadFault,
    /// Out of memory.
    NoMemory,
}

impl From<AllocError> for End {
    ghost use Rattle.r2_cli_outcome.specs.declared.plan.End.TheVariants.{NoMemory};

    ghost from_gives = { λ _ e. e ≡ NoMemory };

    fn from(_e: AllocError) -> End {
        End::NoMemory
    }
}

impl<T: Drop> From<AllocFailed<T>> for End {
    ghost use Rattle.r2_cli_outcome.specs.declared.plan.End.TheVariants.{NoMemory};

    ghost from_gives = { λ _ e. e ≡ NoMemory };

    fn from(_e: AllocFailed<T>) -> End {
        End::NoMemory
    }
}

/// The line of these words.
pub fn line(alloc: Global, words: &[u8]) -> Result<Vec<u8>, AllocError>
    ensures { IfOk result (λ line. line.items ≡ line_of words.now) }
{
    let mut line = Vec::from_slice(alloc, b"r2: ")?;
    line.extend_from_slice(words)?;
    line.push(b'\n')?;
    Ok(line)
}

/// The end of a command that is refused; its line has these words.
pub fn refused(alloc: Global, status: Status, words: &[u8]) -> End
    ensures { IsEnd (refusal status words.now) result }
{
    match line(alloc, words) {
        Ok(line) => End::Planned(Plan {
            status,
            writes: Vec::new(alloc),
            line,
        }),
        Err(_) => End::NoMemory,
    }
}

/// The plan that prints this text and has this line.
pub fn print(alloc: Global, status: Status, text: Text, line: Vec<u8>) -> Result<Plan, AllocError>
    ensures { IfOk result (λ plan. outcome_of plan ≡ printed status (bytes_of text) line.items) }
{
    let mut writes = Vec::new(alloc);
    writes.push(Write {
        to: Target::Output,
        text,
    })?;
    Ok(Plan {
        status,
        writes,
        line,
    })
}

/// The end of a command that prints this text and no line.
pub fn print_and_end(alloc: Global, status: Status, text: Vec<u8>) -> End
    ensures { IsEnd (printed status text.items []) result }
{
    match print(alloc, status, Text::Bytes(text), Vec::new(alloc)) {
        Ok(plan) => End::Planned(plan),
        Err(_) => End::NoMemory,
    }
}

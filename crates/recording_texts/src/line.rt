//! The line and the status of a recorded run.

ghost use Rattle.std.specs.Prelude.{◌≡◌, ◌++◌, IfOk, codes};
ghost use Rattle.r2_cli_outcome.specs.Outcome.{line_of};
ghost use Rattle.recording_texts.specs.Endings.{breach_words, ending_line, fault_words, halt_words, status_of};

use crate::words::{put_breach, put_fault, put_halt};
use c_code::Code;
use r2_cli_outcome::{Status, line};
use std::alloc::{AllocError, Global};
use whole_runs::{Ending, Halt};

fn fault_line(alloc: Global, kind: u8, thread: u8) -> Result<Vec<u8>, AllocError>
    ensures { IfOk result (λ line. line.items ≡ line_of (codes "fault " ++ fault_words kind thread)) }
{
    let mut words = Vec::from_slice(alloc, b"fault ")?;
    put_fault(&mut words, kind, thread)?;
    line(alloc, &words)
}

fn breach_line(
    alloc: Global,
    kind: u8,
    thread: u8,
    addr: u64,
    other: Option<u8>,
) -> Result<Vec<u8>, AllocError>
    ensures { IfOk result (λ line. line.items ≡
        line_of (codes "breach " ++ breach_words kind thread addr other)) }
{
    let mut words = Vec::from_slice(alloc, b"breach ")?;
    put_breach(&mut words, kind, thread, addr, other)?;
    line(alloc, &words)
}

fn halted_line(alloc: Global, code: &Code, why: Halt) -> Result<Vec<u8>, AllocError>
    ensures { IfOk result (λ line. line.items ≡ line_of (codes "halted " ++ halt_words code.now why)) }
{
    let mut words = Vec::from_slice(alloc, b"halted ")?;
    put_halt(&mut words, code, why)?;
    line(alloc, &words)
}

/// The line that says how a run of the code ended; none where all its threads ended. A name that the code doesn't know is left
/// out.
pub fn ending_line(alloc: Global, code: &Code, ending: Ending) -> Result<Vec<u8>, AllocError>
    ensures { IfOk result (λ line. line.items ≡ ending_line code.now ending) }
{
    match ending {
        Ending::Done => Ok(Vec::new(alloc)),
        Ending::Fault { kind, thread } => fault_line(alloc, kind, thread),
        Ending::Breach {
            kind,
            thread,
            addr,
            other,
        } => breach_line(alloc, kind, thread, addr, other),
        Ending::Halted(why) => halted_line(alloc, code, why),
    }
}

/// The exit status of the program that recorded a run which ended so.
pub fn status_of(ending: Ending) -> Status
    ensures { result ≡ status_of ending }
{
    match ending {
        Ending::Done => Status::Done,
        Ending::Fault { .. } => Status::Fault,
        Ending::Breach { .. } => Status::Breach,
        Ending::Halted(_) => Status::Halted,
    }
}

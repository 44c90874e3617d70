//! The stage that reads a system file for an accepted source.

ghost use Rattle.std.specs.Prelude.{◌≡◌, ◌++◌, ◌≤◌, IfOk, List, Ok, codes, decimal, length, ℕ};
ghost use Rattle.front_end.specs.Answers.{IsAccepted};
ghost use Rattle.sys_script_lines.specs.Scripts.{IsRead};
ghost use Rattle.r2_cli_outcome.specs.declared.status.Status.TheVariants.{System};
ghost use Rattle.r2_cli_outcome.specs.Input.{most_system_bytes};
ghost use Rattle.r2_cli_outcome.specs.Outcome.{refusal};
ghost use Rattle.r2_cli_outcome.specs.Plans.{Answers, IsEnd};
ghost use Rattle.recorded_outcome.specs.Stages.{SystemOf, line_words, script_for};

use front_end::CheckedSource;
use r2_base::put_dec;
use r2_cli_outcome::{End, Status, refused};
use std::alloc::{AllocError, Global};
use sys_script::{ScriptError, read};
use system_side::SysFile;

/// A system file that is read for a source: its bytes, and what they say.
#[derive(Drop)]
pub struct SystemFile {
    pub bytes: Vec<u8>,
    pub file: SysFile,
}

fn line_words(alloc: Global, number: u32) -> Result<Vec<u8>, AllocError>
    ensures { IfOk result (λ words. words.items ≡ line_words number) }
{
    let mut words = Vec::from_slice(alloc, b"system line ")?;
    put_dec(&mut words, i128::from(number))?;
    Ok(words)
}

/// The end of a command that finds this line of a system file the first wrong one.
fn wrong_line(alloc: Global, number: u32) -> End
    ensures { IsEnd (refusal System (line_words number)) result }
{
    match line_words(alloc, number) {
        Ok(words) => refused(alloc, Status::System, &words),
        Err(_) => End::NoMemory,
    }
}

/// The system file that the bytes are for an accepted source, or its first wrong line.
pub fn system_of(alloc: Global, bytes: Vec<u8>, source: &CheckedSource) -> Result<SystemFile, End>
    requires short { length bytes.items ≤ most_system_bytes }
    requires few { length source.now.program.functions ≤ 1000 }
    ensures read { IfOk result (λ s. IsRead (script_for source.now s.bytes.items) (Ok s.file)) }
    ensures answers { (text cut : List ℕ) → IsAccepted text cut source.now →
        Answers (λ s. s.bytes.items) (SystemOf cut text bytes.items) 0 0 result }
{
    match read(alloc, &bytes, &source.program, &source.interface) {
        Ok(file) => Ok(SystemFile { bytes, file }),
        Err(ScriptError::Line(number)) => Err(wrong_line(alloc, number)),
        Err(ScriptError::Memory) => Err(End::NoMemory),
    }
}

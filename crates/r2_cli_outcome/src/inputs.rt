//! The stage that reads an input file.

ghost use Rattle.std.specs.Prelude.{◌≡◌, ◌++◌, ◌<◌, ◌≤◌, ◌^◌, IfOk, length, codes};
ghost use Rattle.r2_base.specs.Seen.{OnlyReads};
ghost use Rattle.r2_cli_outcome.specs.declared.status.Status.TheVariants.{ReadFault, Limit};
ghost use Rattle.r2_cli_outcome.specs.Outcome.{refusal, limit_words};
ghost use Rattle.r2_cli_outcome.specs.Reading.{Sees};
ghost use Rattle.r2_cli_outcome.specs.Plans.{Answers, IsEnd};
ghost use Rattle.r2_cli_outcome.specs.Input.{Input};

use crate::plan::{End, refused};
use crate::reading::{ReadError, read_all};
use crate::status::Status;
use r2_base::{Fault, Files, put_dec};
use std::alloc::{AllocError, Global};

/// How many bytes are asked for at once.
const PIECE: usize = 65_536;

fn limit_line(alloc: Global, word: &str, most: usize) -> Result<Vec<u8>, AllocError>
    ensures { IfOk result (λ words. words.items ≡ limit_words word.now most) }
{
    let mut words = Vec::from_slice(alloc, b"limit ")?;
    words.extend_from_slice(word.as_bytes())?;
    words.push(b' ')?;
    put_dec(&mut words, most as i128)?;
    Ok(words)
}

/// The end of a command that finds a number exceeded.
pub fn exceeded(alloc: Global, word: &str, most: usize) -> End
    ensures { IsEnd (refusal Limit (limit_words word.now most)) result }
{
    match limit_line(alloc, word, most) {
        Ok(words) => refused(alloc, Status::Limit, &words),
        Err(_) => End::NoMemory,
    }
}

fn missing_words(alloc: Global, name: &str) -> Result<Vec<u8>, AllocError>
    ensures { IfOk result (λ words. words.items ≡ codes "no file " ++ name.now) }
{
    let mut words = Vec::from_slice(alloc, b"no file ")?;
    words.extend_from_slice(name.as_bytes())?;
    Ok(words)
}

/// The end of a command that doesn't find an input file.
fn missing(alloc: Global, name: &str) -> End
    ensures { IsEnd (refusal ReadFault (codes "no file " ++ name.now)) result }
{
    match missing_words(alloc, name) {
        Ok(words) => refused(alloc, Status::ReadFault, &words),
        Err(_) => End::NoMemory,
    }
}

/// What the file holds, at most so many bytes; the word says of what there may be so many. At most one byte more is
/// read.
pub fn input<F: Files>(
    alloc: Global,
    files: &mut F,
    name: &str,
    word: &str,
    most: usize,
) -> Result<Vec<u8>, End>
    requires { most < 2 ^ 32 }
    ensures only { OnlyReads (F.seen files.old) (F.seen files.new) }
    ensures within { IfOk result (λ bytes. length bytes.items ≤ most) }
    ensures answers { Answers (λ bytes. bytes.items)
        (Input (Sees (F.seen files.old)) name.now word.now most)
        (F.seen files.old).read_faults (F.seen files.new).read_faults result }
{
    match read_all(alloc, files, name, most, PIECE) {
        Ok(bytes) => Ok(bytes),
        Err(ReadError::TooLong) => Err(exceeded(alloc, word, most)),
        Err(ReadError::Fault(Fault::Failed)) => Err(End::ReadFault),
        Err(ReadError::Fault(Fault::Missing)) => Err(missing(alloc, name)),
        Err(ReadError::Fault(Fault::Memory)) => Err(End::NoMemory),
    }
}

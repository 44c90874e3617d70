//! Reading a whole file.

ghost use Rattle.std.specs.Prelude.{◌≡◌, ◌≤◌, ◌<◌, ◌+◌, ◌^◌, ℕ, List, Some, None, Ok, Err, length, IfOk, IfErr, IsTrue, false};
ghost use Rattle.r2_base.specs.Causes.{IsReadCause, Rose};
ghost use Rattle.r2_base.specs.Seen.{OnlyReads};
ghost use Rattle.r2_cli_outcome.specs.Reading.{IsPrefixOf, HoldsMore};
ghost use Rattle.r2_base.specs.declared.fault.Fault.TheVariants.{Missing, Failed};

use r2_base::{Fault, Files};
use std::alloc::{AllocError, AllocFailed, Global};

/// Why a file was not read.
#[derive(Clone, Copy)]
pub enum ReadError {
    /// A read was refused.
    Fault(Fault),
    /// The file holds more bytes than are allowed.
    TooLong,
}

impl From<Fault> for ReadError {
    ghost use Rattle.r2_cli_outcome.specs.declared.reading.ReadError.TheVariants.{Fault};

    ghost from_gives = { λ fault e. e ≡ Fault fault };

    fn from(fault: Fault) -> ReadError {
        ReadError::Fault(fault)
    }
}

impl From<AllocError> for ReadError {
    ghost use Rattle.r2_base.specs.declared.fault.Fault.TheVariants.{Memory};
    ghost use Rattle.r2_cli_outcome.specs.declared.reading.ReadError.TheVariants.{Fault};

    ghost from_gives = { λ _ e. e ≡ Fault Memory };

    fn from(_e: AllocError) -> ReadError {
        ReadError::Fault(Fault::Memory)
    }
}

impl<T: Drop> From<AllocFailed<T>> for ReadError {
    ghost use Rattle.r2_base.specs.declared.fault.Fault.TheVariants.{Memory};
    ghost use Rattle.r2_cli_outcome.specs.declared.reading.ReadError.TheVariants.{Fault};

    ghost from_gives = { λ _ e. e ≡ Fault Memory };

    fn from(_e: AllocFailed<T>) -> ReadError {
        ReadError::Fault(Fault::Memory)
    }
}

/// Adds at most so many bytes of the file to the text that was read of it, and answers whether there were any.
fn read_more<F: Files>(
    files: &mut F,
    name: &str,
    piece: &mut [u8],
    text: &mut Vec<u8>,
) -> Result<bool, Fault>
    requires { 0 < length piece.old }
    ensures only { OnlyReads (F.seen files.old) (F.seen files.new) }
    ensures cause { IfErr result (IsReadCause (F.seen files.old).read_faults
        (F.seen files.new).read_faults) }
    ensures prefix { IsTrue (F.seen files.old).tells
        → IsPrefixOf text.old.items ((F.seen files.old).holds name.now)
        → IsPrefixOf text.new.items ((F.seen files.old).holds name.now) }
    ensures end { result ≡ Ok false → IsTrue (F.seen files.old).tells
        → IsPrefixOf text.old.items ((F.seen files.old).holds name.now)
        → (F.seen files.old).holds name.now ≡ Some text.new.items }
    ensures missing { result ≡ Err Missing → IsTrue (F.seen files.old).tells
        → (F.seen files.old).holds name.now ≡ None }
    ensures ended { result ≡ Ok false → text.new.items ≡ text.old.items }
    ensures grows { IfOk result (λ more. IsTrue more
        → length text.old.items < length text.new.items) }
    ensures room { length text.new.items ≤ length text.old.items + length piece.old }
{
    let count = files.read_at(name, text.len() as u64, piece)?;
    text.extend_from_slice(&piece[..count])?;
    Ok(count > 0)
}

/// What the file holds, where that is at most so many bytes. At most one byte more is read, and at most `at_once` bytes
/// are asked for at once.
pub fn read_all<F: Files>(
    alloc: Global,
    files: &mut F,
    name: &str,
    most: usize,
    at_once: usize,
) -> Result<Vec<u8>, ReadError>
    requires limit { most < 2 ^ 32 }
    requires some { 1 ≤ at_once }
    ensures only { OnlyReads (F.seen files.old) (F.seen files.new) }
    ensures most { IfOk result (λ text. length text.items ≤ most) }
    ensures text { IfOk result (λ text. IsTrue (F.seen files.old).tells
        → (F.seen files.old).holds name.now ≡ Some text.items) }
    ensures failed { result ≡ Err (ReadError.Fault Failed)
        → Rose (F.seen files.old).read_faults (F.seen files.new).read_faults }
    ensures missing { result ≡ Err (ReadError.Fault Missing) → IsTrue (F.seen files.old).tells
        → (F.seen files.old).holds name.now ≡ None }
    ensures too_long { result ≡ Err ReadError.TooLong → IsTrue (F.seen files.old).tells
        → HoldsMore most ((F.seen files.old).holds name.now) }
{
    let mut piece = vec![in alloc; 0; at_once]?;
    let mut text = Vec::new(alloc);
    while text.len() <= most {
        let ask = at_once.min(most + 1 - text.len());
        if !read_more(files, name, &mut piece[..ask], &mut text)? {
            return Ok(text);
        }
    }
    Err(ReadError::TooLong)
}

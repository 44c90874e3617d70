//! What a run left, beside what is wanted of it.

ghost use Rattle.std.specs.Prelude.{◌≡◌, ◌↔◌, IfOk, IsNone};
ghost use Rattle.r2_cli_outcome.specs.Code.{code_of};

use crate::fault::Fault;
use std::alloc::{AllocError, Global};
use test_runs::Left;

/// What a run should leave.
#[derive(Drop)]
pub struct Wanted {
    pub status: u8,
    pub out: Vec<u8>,
    pub err: Vec<u8>,
}

impl Wanted {
    /// Status 0, and nothing is printed.
    pub fn nothing(alloc: Global) -> Wanted {
        Wanted {
            status: 0,
            out: Vec::new(alloc),
            err: Vec::new(alloc),
        }
    }
}

/// Says that the status is another, and what stands on standard error.
fn other_status(alloc: Global, wanted: u8, got: u8, err: &[u8]) -> Result<String, AllocError> {
    let err = String::from_utf8_lossy(alloc, err)?;
    format!(in alloc; "wanted status {wanted}, got {got} and {err:?}")
}

/// Says that a text is another.
fn other_text(alloc: Global, of: &str, wanted: &[u8], got: &[u8]) -> Result<String, AllocError> {
    let wanted = String::from_utf8_lossy(alloc, wanted)?;
    let got = String::from_utf8_lossy(alloc, got)?;
    format!(in alloc; "wanted {of} {wanted:?}, got {got:?}")
}

/// How what the run left differs from what is wanted, in words; none where all is as wanted.
fn difference_of(alloc: Global, wanted: &Wanted, left: &Left) -> Result<Option<String>, AllocError>
    ensures { IfOk result (λ found. IsNone found ↔ (code_of left.now.status ≡ wanted.now.status)
        × (left.now.out.items ≡ wanted.now.out.items)
        × (left.now.err.items ≡ wanted.now.err.items)) }
{
    let status = left.status.code();
    if status != wanted.status {
        return Ok(Some(other_status(alloc, wanted.status, status, &left.err)?));
    }
    if left.out.as_slice() != wanted.out.as_slice() {
        return Ok(Some(other_text(alloc, "output", &wanted.out, &left.out)?));
    }
    if left.err.as_slice() != wanted.err.as_slice() {
        return Ok(Some(other_text(alloc, "line", &wanted.err, &left.err)?));
    }
    Ok(None)
}

/// Answers a difference, if there is one.
pub fn compare_run(alloc: Global, wanted: &Wanted, left: &Left) -> Result<(), Fault> {
    match difference_of(alloc, wanted, left)? {
        Some(words) => Err(Fault::Differs(words)),
        None => Ok(()),
    }
}

/// Answers a difference, if there is one.
pub fn compare_texts(alloc: Global, of: &str, wanted: &[u8], got: &[u8]) -> Result<(), Fault> {
    if wanted == got {
        return Ok(());
    }
    Err(Fault::Differs(other_text(alloc, of, wanted, got)?))
}

// Cases of recordings.

use crate::inputs::NoInputs;
use crate::recordings::recordings_difference;
use crate::texts::{texts_of, wrong_line};
use std::alloc::{AllocError, Global};
use test_cases::{Case, no_form};

/// Says what is refused.
fn refused(alloc: Global, what: &str) -> Result<Option<String>, AllocError> {
    Ok(Some(format!(in alloc; "{what} is refused")?))
}

/// What the recordings of the case have otherwise, or why there are none.
pub fn judge(alloc: Global, case: &Case<'_>) -> Result<Option<String>, AllocError> {
    if let Some(line) = wrong_line(case) {
        return no_form(alloc, line);
    }
    let texts = texts_of(alloc, case)?;
    match recordings_difference(alloc, &texts) {
        Ok(found) => Ok(found),
        Err(NoInputs::Source) => refused(alloc, "the source"),
        Err(NoInputs::Cut) => refused(alloc, "the cut"),
        Err(NoInputs::System) => refused(alloc, "a system file"),
        Err(NoInputs::Memory) => Err(AllocError),
    }
}

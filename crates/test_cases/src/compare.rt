// What was made against what is wanted.

ghost use Rattle.std.specs.Prelude.{◌≡◌, ◌↔◌, IfOk, IsNone};

use crate::case::Line;
use std::alloc::{AllocError, Global};

/// `None` where both texts are the same, else both as words.
pub fn difference(alloc: Global, wanted: &str, made: &str) -> Result<Option<String>, AllocError>
    ensures { IfOk result (λ found. IsNone found ↔ (made.now ≡ wanted.now)) }
{
    if made == wanted {
        return Ok(None);
    }
    Ok(Some(format!(in alloc; "wanted \"{wanted}\", got \"{made}\"")?))
}

/// What is said of a line that is of no form.
pub fn no_form(alloc: Global, line: Line<'_>) -> Result<Option<String>, AllocError> {
    Ok(Some(format!(in alloc; "line {} is of no form", line.number)?))
}

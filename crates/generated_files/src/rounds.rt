//! The source for a number of rounds.

ghost use Rattle.std.specs.Prelude.{◌≡◌, IfOk};
ghost use Rattle.generated_files.specs.Source.{source_text};

use crate::texts::{AFTER, BEFORE};
use r2_base::put_dec;
use std::alloc::{AllocError, Global};

/// The source of a program whose four threads each make so many rounds. In each of them a thread takes a number from below the cut
/// `top`, and mixes it into a sum that mutex 0 guards. At the end the ten digits of the sum are printed.
pub fn source(alloc: Global, rounds: u32) -> Result<Vec<u8>, AllocError>
    ensures { IfOk result (λ text. text.items ≡ source_text rounds) }
{
    let mut text = Vec::from_slice(alloc, BEFORE.as_bytes())?;
    put_dec(&mut text, i128::from(rounds))?;
    text.extend_from_slice(AFTER.as_bytes())?;
    Ok(text)
}

//! The first wrong byte, prefix by prefix.

ghost use Rattle.std.specs.Prelude.{◌≡◌, ◌≤◌, ◌<◌, ◌+◌, ◌↔◌, ℕ, None, Some, length, take, IfOk, IsTrue};
ghost use Rattle.log_codec.specs.LogText.{BeginsLog};
ghost use Rattle.log_codec.specs.Kept.{IsFirstWrong};

use log_codec::{LogError, parse};
use std::alloc::{AllocError, Global};

/// Whether a log text begins with the bytes.
fn begins_log(alloc: Global, bytes: &[u8]) -> Result<bool, AllocError>
    requires { length bytes.now ≤ 67108864 }
    ensures { IfOk result (λ r. IsTrue r ↔ BeginsLog bytes.now) }
{
    match parse(alloc, bytes) {
        Ok(_kept) => Ok(true),
        Err(LogError::BadByte(_)) => Ok(false),
        Err(LogError::Memory) => Err(AllocError),
    }
}

/// The place of the first wrong byte, from 0, where there is one: a log text begins with the bytes before it, and none
/// with it too. It asks of one prefix of the bytes after the other whether a log text begins with it, so that it takes
/// quadratic time.
pub fn first_wrong_byte(alloc: Global, bytes: &[u8]) -> Result<Option<u64>, AllocError>
    requires { length bytes.now ≤ 67108864 }
    ensures begins { IfOk result (λ r. (r ≡ None) ↔ BeginsLog bytes.now) }
    ensures wrong { IfOk result (λ r. (n : ℕ) → (r ≡ Some n) ↔ IsFirstWrong bytes.now n) }
{
    for at in 0..bytes.len() {
        if !begins_log(alloc, &bytes[..at + 1])? {
            return Ok(Some(at as u64));
        }
    }
    Ok(None)
}

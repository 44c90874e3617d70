//! A map from names to bytes.

ghost use Rattle.std.specs.Prelude.{◌≡◌, ◌≢◌, ◌≤◌, ◌++◌, ℕ, List, Some, OnOk, OnErr, IfSome, option_copied};
ghost use Rattle.std.specs.Option.{option_map};
ghost use Rattle.r2_base.specs.Names.{content, IsPiece, ReadsHeld};
ghost use Rattle.r2_base.specs.Held.{held_in};

use std::alloc::{AllocError, Global};
use std::collections::BTreeMap;

pub type Held = BTreeMap<String, Vec<u8>>;

/// Copies bytes of the name, from a place on and at most so many, and answers how many; None where it isn't there.
pub fn read_held(files: &Held, name: &str, from: u64, most: usize, into: &mut [u8]) -> Option<usize>
    requires { 1 ≤ most }
    ensures piece { ReadsHeld (held_in files.now name.now) from into.new result }
    ensures most { IfSome result (λ n. n ≤ most) }
{
    let bytes = files.get(name)?;
    if from >= bytes.len() as u64 {
        return Some(0);
    }
    let rest = &bytes[from as usize..];
    let count = rest.len().min(into.len()).min(most);
    into[..count].copy_from_slice(&rest[..count]);
    Some(count)
}

/// Makes the name hold these bytes.
pub fn set_held(
    alloc: Global,
    files: &mut Held,
    name: &str,
    bytes: Vec<u8>,
) -> Result<(), AllocError>
    ensures ok { OnOk result (held_in files.new name.now ≡ Some bytes.items) }
    ensures others { (n : List ℕ) → n ≢ name.now → held_in files.new n ≡ held_in files.old n }
    ensures err { OnErr result (held_in files.new name.now ≡ held_in files.old name.now) }
{
    let key = String::from_str(alloc, name)?;
    files.insert(key, bytes)?;
    Ok(())
}

/// Adds the piece to what the name holds, to nothing where it isn't there yet.
pub fn append_held(
    alloc: Global,
    files: &mut Held,
    name: &str,
    piece: &[u8],
) -> Result<(), AllocError>
    ensures ok { OnOk result (held_in files.new name.now ≡ Some (content (held_in files.old name.now) ++
        piece.now)) }
    ensures others { (n : List ℕ) → n ≢ name.now → held_in files.new n ≡ held_in files.old n }
    ensures err { OnErr result (held_in files.new name.now ≡ held_in files.old name.now) }
{
    match files.get_mut(name) {
        Some(bytes) => bytes.extend_from_slice(piece),
        None => set_held(alloc, files, name, Vec::from_slice(alloc, piece)?),
    }
}

/// What the name holds.
pub fn file_held<'a>(files: &'a Held, name: &str) -> Option<&'a [u8]>
    ensures { option_copied result ≡ held_in files.now name.now }
{
    files.get(name).map(|bytes| bytes.as_slice())
}

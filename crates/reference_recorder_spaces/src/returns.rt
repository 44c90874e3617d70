//! Rets.

ghost use Rattle.std.specs.Prelude.{◌≡◌, ◌<◌, ◌∷◌, [], ℕ, Bool, List, length, map, IfOk, OnOk};
ghost use Rattle.marks.specs.Marks.{Ret, released};
ghost use Rattle.memory_map.specs.declared.areas.TheConstants.{THREADS};
ghost use Rattle.reference_recorder_marks.specs.Marks.{commit_of};
ghost use Rattle.reference_recorder_spaces.specs.Next.{AreGiven, IsKindNext, MakesKind, Puts, committing};

use crate::bytes::put;
use marks::Side;
use reference_recorder_marks::{Commit, Piece};
use space_memory::Spaces;
use std::alloc::{AllocError, Global};

/// Does a Ret that gives these pieces and commits this: they are written as code below the cut does, and the thread's innermost
/// call is closed.
///
/// `AllocError` where there is no memory.
pub fn give_back(
    spaces: &mut Spaces,
    alloc: Global,
    thread: u8,
    outs: &[Piece],
    commit: &Commit,
) -> Result<(), AllocError>
    requires in_range { thread < THREADS }
    requires next { (func : ℕ) × (args : List ℕ) × (value : ℕ) × (same : Bool) ×
        IsKindNext spaces.old thread (Ret func args value same outs.now (commit_of commit.now)) }
    ensures { OnOk result ((func : ℕ) (args : List ℕ) (value : ℕ) (same : Bool) →
        MakesKind spaces.old thread (Ret func args value same outs.now (commit_of commit.now)) spaces.new) }
{
    put_all(spaces, thread, outs);
    put_released(spaces, thread, commit);
    let used = sizes_of(alloc, outs)?;
    match spaces.release(thread, &used, committing(commit)) {
        Ok(()) => Ok(()),
        Err(_) => unreachable!("its regions are filled as the pieces say, and its key is in use"),
    }
}

// Writes pieces to the front of their ranges.
fn put_all(spaces: &mut Spaces, thread: u8, pieces: &[Piece])
    requires { AreGiven thread pieces.now spaces.old }
    ensures { Puts thread pieces.now spaces.old spaces.new }
{
    match pieces {
        [] => (),
        [first, rest @ ..] => {
            put_piece(spaces, thread, first);
            put_all(spaces, thread, rest);
        }
    }
}

// Writes a piece to the front of its range.
fn put_piece(spaces: &mut Spaces, thread: u8, piece: &Piece)
    requires { AreGiven thread (piece.now ∷ []) spaces.old }
    ensures { Puts thread (piece.now ∷ []) spaces.old spaces.new }
{
    put(
        spaces,
        Side::System,
        thread,
        piece.range.addr,
        piece.bytes.as_slice(),
    );
}

// Writes the piece of the region that is released, if one is.
fn put_released(spaces: &mut Spaces, thread: u8, commit: &Commit)
    requires { AreGiven thread (released (commit_of commit.now)) spaces.old }
    ensures { Puts thread (released (commit_of commit.now)) spaces.old spaces.new }
{
    match commit {
        Commit::NoRegion => (),
        Commit::Withheld => (),
        Commit::Released { key: _, region } => put_piece(spaces, thread, region),
    }
}

// How many bytes each piece has.
fn sizes_of(alloc: Global, pieces: &[Piece]) -> Result<Vec<u64>, AllocError>
    ensures { IfOk result (λ sizes. sizes.items ≡ map (λ p. length p.bytes) pieces.now) }
{
    let mut sizes = Vec::new(alloc);
    for piece in pieces {
        sizes.push(size_of(piece))?;
    }
    Ok(sizes)
}

fn size_of(piece: &Piece) -> u64
    ensures { result ≡ length piece.now.bytes }
{
    piece.bytes.as_slice().len() as u64
}

// The key that is released, if one is, and how many bytes of its region are.
fn committing(commit: &Commit) -> Option<(u64, u64)>
    ensures { result ≡ committing (commit_of commit.now) }
{
    match commit {
        Commit::NoRegion => None,
        Commit::Withheld => None,
        Commit::Released { key, region } => Some((*key, size_of(region))),
    }
}

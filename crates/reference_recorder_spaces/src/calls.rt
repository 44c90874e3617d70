//! Calls.

ghost use Rattle.std.specs.Prelude.{◌≡◌, ◌<◌, ◌≤◌, ℕ, List, ◌∷◌, [], map, slice_index, All, OnOk};
ghost use Rattle.marks.specs.Marks.{Call};
ghost use Rattle.memory_map.specs.declared.areas.TheConstants.{THREADS};
ghost use Rattle.space_memory_laws.specs.Calls.{Holds, Prepares, Reads, held_part, prepared_part};
ghost use Rattle.reference_recorder_spaces.specs.Next.{Adds, IsKindNext, IsNextPart, IsRegion, MakesKind};

use marks::Range;
use reference_recorder_marks::Piece;
use space_memory::{HoldError, Spaces};
use std::alloc::{AllocError, Global};
use stub_calls::Prepared;

/// Does a Call that reads these pieces, holds these ranges, and prepares these.
pub fn call(
    spaces: &mut Spaces,
    alloc: Global,
    thread: u8,
    ins: &[Piece],
    outs: &[Range],
    prepared: &[Prepared],
) -> Result<(), AllocError>
    requires in_range { thread < THREADS }
    requires next { (func : ℕ) × (args : List ℕ) ×
        IsKindNext spaces.old thread (Call func args ins.now outs.now prepared.now) }
    ensures { OnOk result ((func : ℕ) (args : List ℕ) →
        MakesKind spaces.old thread (Call func args ins.now outs.now prepared.now) spaces.new) }
{
    spaces.open(thread)?;
    read_all(spaces, alloc, thread, ins)?;
    hold_all(spaces, alloc, thread, outs)?;
    prepare_all(spaces, alloc, thread, prepared)
}

// Adds a range to the Call that the thread makes, which reads it, or holds it to be written below the cut.
fn hold(
    spaces: &mut Spaces,
    alloc: Global,
    thread: u8,
    range: Range,
    write: bool,
) -> Result<(), AllocError>
    requires in_range { thread < THREADS }
    requires open { 1 ≤ slice_index spaces.old.held.depths thread }
    requires region { IsRegion range }
    requires next { IsNextPart thread (held_part write range ∷ []) spaces.old }
    ensures adds { OnOk result (Adds thread (held_part write range ∷ []) spaces.old spaces.new) }
    ensures depths { spaces.new.held.depths ≡ spaces.old.held.depths }
{
    match spaces.hold(alloc, thread, range, write) {
        Ok(()) => Ok(()),
        Err(HoldError::Memory) => Err(AllocError),
        Err(HoldError::Refused(_)) => unreachable!("the range may be handed down"),
    }
}

// Adds the ranges of pieces, which the Call reads.
fn read_all(
    spaces: &mut Spaces,
    alloc: Global,
    thread: u8,
    pieces: &[Piece],
) -> Result<(), AllocError>
    requires in_range { thread < THREADS }
    requires open { 1 ≤ slice_index spaces.old.held.depths thread }
    requires regions { All (λ p. IsRegion p.range) pieces.now }
    requires next { IsNextPart thread (map (λ p. Reads p.range) pieces.now) spaces.old }
    ensures adds { OnOk result (Adds thread (map (λ p. Reads p.range) pieces.now) spaces.old spaces.new) }
    ensures depths { spaces.new.held.depths ≡ spaces.old.held.depths }
{
    for piece in pieces {
        hold(spaces, alloc, thread, range_of(piece), false)?;
    }
    Ok(())
}

// Adds ranges that the Call holds to be written.
fn hold_all(
    spaces: &mut Spaces,
    alloc: Global,
    thread: u8,
    ranges: &[Range],
) -> Result<(), AllocError>
    requires in_range { thread < THREADS }
    requires open { 1 ≤ slice_index spaces.old.held.depths thread }
    requires regions { All IsRegion ranges.now }
    requires next { IsNextPart thread (map Holds ranges.now) spaces.old }
    ensures adds { OnOk result (Adds thread (map Holds ranges.now) spaces.old spaces.new) }
    ensures depths { spaces.new.held.depths ≡ spaces.old.held.depths }
{
    for range in ranges {
        hold(spaces, alloc, thread, *range, true)?;
    }
    Ok(())
}

// Adds a range that the Call prepares under a key.
fn prepare(
    spaces: &mut Spaces,
    alloc: Global,
    thread: u8,
    key: u64,
    range: Range,
) -> Result<(), AllocError>
    requires in_range { thread < THREADS }
    requires open { 1 ≤ slice_index spaces.old.held.depths thread }
    requires region { IsRegion range }
    requires next { IsNextPart thread (Prepares key range ∷ []) spaces.old }
    ensures adds { OnOk result (Adds thread (Prepares key range ∷ []) spaces.old spaces.new) }
    ensures depths { spaces.new.held.depths ≡ spaces.old.held.depths }
{
    match spaces.prepare(alloc, thread, key, range) {
        Ok(()) => Ok(()),
        Err(HoldError::Memory) => Err(AllocError),
        Err(HoldError::Refused(_)) => unreachable!("the range may be prepared under the key"),
    }
}

// Adds those that it prepares.
fn prepare_all(
    spaces: &mut Spaces,
    alloc: Global,
    thread: u8,
    prepared: &[Prepared],
) -> Result<(), AllocError>
    requires in_range { thread < THREADS }
    requires open { 1 ≤ slice_index spaces.old.held.depths thread }
    requires regions { All (λ p. IsRegion p.range) prepared.now }
    requires next { IsNextPart thread (map prepared_part prepared.now) spaces.old }
    ensures adds { OnOk result (Adds thread (map prepared_part prepared.now) spaces.old spaces.new) }
    ensures depths { spaces.new.held.depths ≡ spaces.old.held.depths }
{
    for region in prepared {
        prepare(spaces, alloc, thread, key_of(region), range_under(region))?;
    }
    Ok(())
}

fn range_of(piece: &Piece) -> Range
    ensures { result ≡ piece.now.range }
{
    piece.range
}

fn range_under(region: &Prepared) -> Range
    ensures { result ≡ region.now.range }
{
    region.range
}

fn key_of(region: &Prepared) -> u64
    ensures { result ≡ region.now.key }
{
    region.key
}

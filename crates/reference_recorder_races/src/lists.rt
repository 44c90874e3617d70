//! The least byte at which the tested access meets one of several ranges.

ghost use Rattle.std.specs.Prelude.{length};
ghost use Rattle.marks.specs.Marks.{released};
ghost use Rattle.marks.specs.Ranges.{any_piece, any_prepared, any_range, covers, within};
ghost use Rattle.reference_recorder_marks.specs.Marks.{commit_of};
ghost use Rattle.reference_recorder_races.specs.Least.{IsLeastAt};
ghost use Rattle.reference_recorder_races.specs.Hits.{reading, writing};

use crate::hits::{read, written};
use crate::least::least;
use crate::tested::Tested;
use marks::Range;
use reference_recorder_marks::{Commit, Piece, PieceList, PreparedList, RangeList};
use run_events::Bytes;
use stub_calls::Prepared;

/// Of ranges that were read.
fn read_ranges(tested: Tested, ranges: &[Range]) -> Option<u64>
    ensures { IsLeastAt (λ x. reading tested x (any_range ranges.now x)) result }
{
    let mut best = None;
    for range in ranges {
        let more = read(tested, *range);
        best = least(best, more);
    }
    best
}

fn read_piece(tested: Tested, piece: &Piece) -> Option<u64>
    ensures { IsLeastAt (λ x. reading tested x (covers piece.now.range x)) result }
{
    read(tested, piece.range)
}

/// Of pieces that were read.
fn read_pieces(tested: Tested, pieces: &[Piece]) -> Option<u64>
    ensures { IsLeastAt (λ x. reading tested x (any_piece pieces.now x)) result }
{
    let mut best = None;
    for piece in pieces {
        let more = read_piece(tested, piece);
        best = least(best, more);
    }
    best
}

/// Of ranges that were held.
fn written_ranges(tested: Tested, ranges: &[Range]) -> Option<u64>
    ensures { IsLeastAt (λ x. writing tested x (any_range ranges.now x)) result }
{
    let mut best = None;
    for range in ranges {
        let more = written(tested, *range);
        best = least(best, more);
    }
    best
}

fn written_piece(tested: Tested, piece: &Piece) -> Option<u64>
    ensures { IsLeastAt (λ x. writing tested x (covers piece.now.range x)) result }
{
    written(tested, piece.range)
}

/// Of pieces that were written.
fn written_pieces(tested: Tested, pieces: &[Piece]) -> Option<u64>
    ensures { IsLeastAt (λ x. writing tested x (any_piece pieces.now x)) result }
{
    let mut best = None;
    for piece in pieces {
        let more = written_piece(tested, piece);
        best = least(best, more);
    }
    best
}

fn one_prepared(tested: Tested, prepared: &Prepared) -> Option<u64>
    ensures { IsLeastAt (λ x. writing tested x (covers prepared.now.range x)) result }
{
    written(tested, prepared.range)
}

/// Of ranges that were prepared.
fn written_prepared(tested: Tested, prepared: &[Prepared]) -> Option<u64>
    ensures { IsLeastAt (λ x. writing tested x (any_prepared prepared.now x)) result }
{
    let mut best = None;
    for one in prepared {
        let more = one_prepared(tested, one);
        best = least(best, more);
    }
    best
}

/// Of the region that a return releases.
pub fn written_commit(tested: Tested, commit: &Commit) -> Option<u64>
    ensures { IsLeastAt (λ x. writing tested x (any_piece (released (commit_of commit.now)) x)) result }
{
    match commit {
        Commit::NoRegion => None,
        Commit::Withheld => None,
        Commit::Released { region, .. } => written_piece(tested, region),
    }
}

/// Of a list of pieces that were read.
pub fn read_list(tested: Tested, pieces: &PieceList) -> Option<u64>
    ensures { IsLeastAt (λ x. reading tested x (any_piece pieces.now x)) result }
{
    read_pieces(tested, pieces.as_slice())
}

/// Of a list of ranges that were read.
pub fn stopped_list(tested: Tested, ranges: &RangeList) -> Option<u64>
    ensures { IsLeastAt (λ x. reading tested x (any_range ranges.now x)) result }
{
    read_ranges(tested, ranges.as_slice())
}

/// Of a list of ranges that were held.
pub fn held_list(tested: Tested, ranges: &RangeList) -> Option<u64>
    ensures { IsLeastAt (λ x. writing tested x (any_range ranges.now x)) result }
{
    written_ranges(tested, ranges.as_slice())
}

/// Of a list of pieces that were written.
pub fn written_list(tested: Tested, pieces: &PieceList) -> Option<u64>
    ensures { IsLeastAt (λ x. writing tested x (any_piece pieces.now x)) result }
{
    written_pieces(tested, pieces.as_slice())
}

/// Of a list of ranges that were prepared.
pub fn prepared_list(tested: Tested, prepared: &PreparedList) -> Option<u64>
    ensures { IsLeastAt (λ x. writing tested x (any_prepared prepared.now x)) result }
{
    written_prepared(tested, prepared.as_slice())
}

/// Of bytes that were read from an address on.
pub fn read_bytes(tested: Tested, at: u64, bytes: &Bytes) -> Option<u64>
    ensures { IsLeastAt (λ x. reading tested x (within at (length bytes.now) x)) result }
{
    let len = bytes.as_slice().len() as u64;
    read(tested, Range { addr: at, len })
}

/// Of bytes that were written from an address on.
pub fn written_bytes(tested: Tested, at: u64, bytes: &Bytes) -> Option<u64>
    ensures { IsLeastAt (λ x. writing tested x (within at (length bytes.now) x)) result }
{
    let len = bytes.as_slice().len() as u64;
    written(tested, Range { addr: at, len })
}

/// Of so many bytes that were written from an address on.
pub fn written_part(tested: Tested, at: u64, size: u64) -> Option<u64>
    ensures { IsLeastAt (λ x. writing tested x (within at size x)) result }
{
    written(
        tested,
        Range {
            addr: at,
            len: size,
        },
    )
}

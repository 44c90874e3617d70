//! Which lists of ranges an address lies in, and the byte at an address.

ghost use Rattle.std.specs.Prelude.{◌≡◌};
ghost use Rattle.marks.specs.Ranges.{any_piece, any_prepared, any_range, byte_at, covers};

use crate::lists::Piece;
use marks::Range;
use stub_calls::Prepared;

/// Whether the address lies in one of the ranges.
pub fn any_range(ranges: &[Range], addr: u64) -> bool
    ensures { result ≡ any_range ranges.now addr }
{
    for range in ranges {
        if range.has(addr) {
            return true;
        }
    }
    false
}

/// Whether the address lies in the range of one of the pieces.
pub fn any_piece(pieces: &[Piece], addr: u64) -> bool
    ensures { result ≡ any_piece pieces.now addr }
{
    for piece in pieces {
        if is_in_piece(piece, addr) {
            return true;
        }
    }
    false
}

pub(crate) fn is_in_piece(piece: &Piece, addr: u64) -> bool
    ensures { result ≡ covers piece.now.range addr }
{
    piece.range.has(addr)
}

/// Whether the address lies in one of the ranges that are prepared.
pub fn any_prepared(prepared: &[Prepared], addr: u64) -> bool
    ensures { result ≡ any_prepared prepared.now addr }
{
    for one in prepared {
        if is_in_prepared(one, addr) {
            return true;
        }
    }
    false
}

fn is_in_prepared(one: &Prepared, addr: u64) -> bool
    ensures { result ≡ covers one.now.range addr }
{
    one.range.has(addr)
}

/// The byte at the address, where these bytes stand from `at` on; 0 past their end.
pub fn byte_at(at: u64, bytes: &[u8], addr: u64) -> u8
    ensures { result ≡ byte_at at bytes.now addr }
{
    match bytes.get(addr.saturating_sub(at) as usize) {
        Some(byte) => *byte,
        None => 0,
    }
}

//! Sizes and alignments.

ghost use Rattle.std.specs.Prelude.{◌≡◌};
ghost use Rattle.c_types_model.specs.Layouts.{kind_extent, pointer_extent, repeated as repeated_of, capped_extent};

use r2_num::IntKind;

/// How many bytes an object of a type has, and what its address is a multiple of (C11 6.2.8, 6.5.3.4).
///
/// A size that is greater than 2^64 - 1 counts as 2^64 - 1.
#[derive(Clone, Copy)]
pub struct Extent {
    pub size: u64,
    pub align: u64,
}

impl Extent {
    /// That of an integer kind: 1, 2, 4 or 8 bytes, aligned to the size.
    pub fn of_kind(kind: IntKind) -> Extent
        ensures { result ≡ kind_extent kind }
    {
        let size = (kind.width() / 8) as u64;
        Extent { size, align: size }
    }

    /// That of a pointer: 8 bytes, aligned to the size.
    pub fn of_pointer() -> Extent
        ensures { result ≡ pointer_extent }
    {
        Extent { size: 8, align: 8 }
    }

    /// That of an array of `length` such objects, one after another (C11 6.2.5, 20).
    pub fn repeated(self, length: u64) -> Extent
        ensures { result ≡ capped_extent (repeated_of length self) }
    {
        Extent {
            size: length.saturating_mul(self.size),
            align: self.align,
        }
    }
}
